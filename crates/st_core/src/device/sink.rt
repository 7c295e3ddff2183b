//! The trait of byte sinks. The sinks themselves are in the modules next to it.

ghost use Rattle.std.specs.Prelude.{◌≤◌, ◌<◌, take, List, [], ℕ, Bool, Option, IfOk, MatchResult};
ghost use Rattle.std.specs.Prelude.{length};
ghost use Rattle.std.specs.Io.KnownBytes.{WriteAppends, Appends};
ghost use Rattle.st_core.specs.Device.{MarksFailure, PassesEmpty};

use crate::device::source::Failed;

/// A device that takes bytes, in pieces.
pub trait ByteSink {
    // The bytes that were written, if the sink tells them.
    ghost written: { Self → Option (List ℕ) };

    // True after a call has failed.
    ghost failed: { Self → Bool };

    // One call wrote these bytes and led from the first state to the second. Every sink has this
    // relation, even one that doesn't tell what was written.
    ghost puts: { Self → List ℕ → Self → Type 0 };

    /// Writes bytes from the front of the piece, and returns how many: 0 only for an empty piece,
    /// which a sink that hasn't failed always takes. A call that fails has written nothing, and
    /// after a failure each call fails.
    fn put(&mut self, piece: &[u8]) -> Result<usize, Failed>
        ensures bound { IfOk result (λ n. n ≤ length piece.now) }
        ensures some { IfOk result (λ n. 0 < length piece.now → 0 < n) }
        ensures empty { PassesEmpty (failed self.old) piece.now self.old self.new result }
        ensures bytes { WriteAppends (written self.old) (written self.new) result piece.now }
        ensures wrote { MatchResult result
            (λ n. puts self.old (take n piece.now) self.new)
            (λ _. puts self.old [] self.new) }
        ensures mark { MarksFailure (failed self.old) (failed self.new) result };

    // The bytes that a call wrote are at the end of those that were written, if the sink tells
    // them.
    ghost puts_appends: { (a : Self) (bytes : List ℕ) (b : Self) → puts a bytes b
        → Appends (written a) (written b) bytes };
}
