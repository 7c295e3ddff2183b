//! Hashers that begin with a digest of all keys of their table.
//!
//! Whoever writes a trace chooses its pids and counts. The library's own hasher begins in a fixed
//! state, so somebody could choose many keys with the same hash. Here exchanging one key changes
//! the hash of each.
#![tactic(auto)]

ghost use Rattle.st_hash.specs.Tables.{IsDigestOf, begun_with};

use sha2::{Digest, Sha256};
use std::hash::{BuildHasher, DefaultHasher, Hasher};

/// The state in which a table's hashers begin: a digest of its keys.
#[derive(Clone, Copy, Debug)]
pub struct DigestState {
    /// The SHA-256 digest of the table's keys.
    pub digest: [u8; 32],
}

impl DigestState {
    /// Returns the state for a table of the keys that were written to `keys`.
    pub fn new(keys: Sha256) -> DigestState
        ensures { IsDigestOf keys result.digest }
    {
        DigestState {
            digest: keys.finalize(),
        }
    }
}

impl BuildHasher for DigestState {
    type Hasher = DefaultHasher;

    ghost build_hasher = { λ s. begun_with s.digest };

    fn build_hasher(&self) -> DefaultHasher {
        let mut hasher = DefaultHasher::new();
        hasher.write(&self.digest);
        hasher
    }
}
