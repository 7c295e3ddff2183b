//! The numbers of a world's processes. The pids rise with the numbers, and each row of the world
//! has a process at its number.
//!
//! Acts name processes by pid. The number of a pid is guessed first. If the guess is wrong, the
//! pid is looked up in a set that keeps the pids in their order. Anyone who writes acts chooses
//! their pids, so the set's hashes begin with a digest of all pids of the world.

ghost use Rattle.std.specs.Prelude.{◌≡◌, position, IfOk};
ghost use Rattle.st_core.specs.Pid.{pid_eq, IsRising};

use indexmap::IndexSet;
use sha2::{Digest, Sha256};
use st_core::{Guesses, Pid};
use st_hash::DigestState;
use std::alloc::{AllocError, Global};
use std::marker::Model;

/// Rising pids, each of which has its place as its number.
#[derive(Drop)]
pub(crate) struct Numbers {
    pids: IndexSet<Pid, DigestState>,
    guesses: Guesses,
}

impl Model for Numbers {
    ghost use Rattle.std.specs.Prelude.{List};
    ghost use Rattle.st_core.specs.declared.types.Pid.{Pid};
    ghost use Rattle.st_core.specs.Pid.{IsRising};

    ghost Value = { List Pid };

    ghost view = { λ a. a.pids.keys };

    ghost invariant = { λ a. IsRising a.pids.keys };
}

impl Numbers {
    /// Makes the numbers of the pids. Fails if memory runs out.
    pub(crate) fn of(alloc: Global, pids: &[Pid]) -> Result<Numbers, AllocError>
        requires { IsRising pids.now }
        ensures { IfOk result (λ numbers. numbers ≡ pids.now) }
    {
        let mut guesses = Guesses::for_pids(alloc, pids.len())?;
        for (number, &pid) in pids.iter().enumerate() {
            guesses.expect(pid.node(), pid.number(), number);
        }
        let pids = set_of(alloc, pids)?;
        Ok(Numbers { pids, guesses })
    }

    /// Returns the number of the process, or nothing if it has none.
    #[inline]
    pub(crate) fn number_of(&self, pid: Pid) -> Option<usize>
        ensures { result ≡ position (λ p. pid_eq p pid) self.now }
    {
        let guess = self.guesses.guess(pid.node(), pid.number());
        if let Some(found) = self.pids.get_index(guess) {
            if *found == pid {
                return Some(guess);
            }
        }
        self.pids.get_index_of(&pid)
    }
}

/// Returns a digest of the pids, which affects only how long a search takes.
fn digest_of(pids: &[Pid]) -> Sha256 {
    let mut digest = Sha256::new();
    for pid in pids {
        digest.update(&pid.node().to_le_bytes());
        digest.update(&pid.number().to_le_bytes());
    }
    digest
}

/// Makes a set of the pids, in their order. Fails if memory runs out.
fn set_of(alloc: Global, pids: &[Pid]) -> Result<IndexSet<Pid, DigestState>, AllocError>
    requires { IsRising pids.now }
    ensures { IfOk result (λ set. set.keys ≡ pids.now) }
{
    let state = DigestState::new(digest_of(pids));
    let mut set = IndexSet::with_capacity_and_hasher(alloc, pids.len(), state)?;
    for &pid in pids {
        let Ok(_) = set.insert(pid) else {
            return Err(AllocError);
        };
    }
    Ok(set)
}
