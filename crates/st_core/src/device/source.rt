//! The trait of byte sources. The sources themselves are in the modules next to it.

ghost use Rattle.std.specs.Prelude.{◌≡◌, ◌≤◌, ◌<◌, take, List, [], ℕ, Bool, Option, IfOk};
ghost use Rattle.std.specs.Prelude.{MatchResult, length};
ghost use Rattle.std.specs.Io.KnownBytes.{ReadConsumes, Consumes};
ghost use Rattle.st_core.specs.Device.{MarksFailure, PassesEmpty};

use thiserror::Error;

/// The device failed, in this call of `take` or `put` or in an earlier one.
#[derive(Clone, Copy, Debug, PartialEq, Eq, Error)]
#[error("the device failed")]
pub struct Failed;

/// A device that gives bytes, in pieces.
pub trait ByteSource {
    // The bytes that are left, if the source tells them.
    ghost left: { Self → Option (List ℕ) };

    // True after a call has failed.
    ghost failed: { Self → Bool };

    // One call gave these bytes and led from the first state to the second. Every source has this
    // relation, even one that doesn't tell what it has left.
    ghost gives: { Self → List ℕ → Self → Type 0 };

    // A call found the source at its end.
    ghost ended: { Self → Type 0 };

    /// Writes the next bytes to the front of the piece, and returns how many. For a piece with
    /// room 0 means the end; for one without room a source that hasn't failed returns 0 and stays
    /// as it was. After a failure each call fails.
    fn take(&mut self, piece: &mut [u8]) -> Result<usize, Failed>
        ensures bound { IfOk result (λ n. n ≤ length piece.new) }
        ensures bytes { ReadConsumes (left self.old) (left self.new) result piece.new }
        ensures given { MatchResult result
            (λ n. gives self.old (take n piece.new) self.new)
            (λ _. gives self.old [] self.new) }
        ensures end { IfOk result (λ n. n ≡ 0 → 0 < length piece.new → ended self.new) }
        ensures empty { PassesEmpty (failed self.old) piece.new self.old self.new result }
        ensures mark { MarksFailure (failed self.old) (failed self.new) result };

    // The bytes that a call gave stood at the front of those that were left, if the source tells
    // them.
    ghost gives_consumes: { (a : Self) (bytes : List ℕ) (b : Self) → gives a bytes b
        → Consumes (left a) (left b) bytes };
}
