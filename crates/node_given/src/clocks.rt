//! The clocks after the last stamp of a process, in all readings of its events.
//!
//! They have the stamp's count in common, and differ only in the four bits that a serial hides: so
//! there are few. As long as no clock has passed 60 bits there is one.

ghost use Rattle.std.specs.Prelude.{◌≡◌, max, IfOk};
ghost use Rattle.std.specs.List.{list_any};
ghost use Rattle.node_machine.specs.Readings.{is_next};
ghost use Rattle.node_given.specs.Clocks.{clocks_by_stamp};

use crate::counts::{clock_after, clock_after_put_back, goes_on};
use node_machine::Seen;
use std::alloc::{AllocError, Global};

/// Returns whether a stamp goes on from a clock, which receives lifted to `lift` at least.
pub(crate) fn some_goes_on(clocks: &[u64], lift: u64, last: u64, stamp: Seen) -> bool
    ensures { result ≡ list_any (λ k. is_next (max k lift) last stamp) clocks.now }
{
    for &clock in clocks {
        if goes_on(clock.max(lift), last, stamp) {
            return true;
        }
    }
    false
}

/// Returns the clocks after a stamp: those that went on, and the one that a put-back leads to.
pub(crate) fn behind_stamp(
    alloc: Global,
    clocks: &[u64],
    lift: u64,
    last: u64,
    stamp: Seen,
) -> Result<Vec<u64>, AllocError>
    ensures { IfOk result (λ v. v.items ≡ clocks_by_stamp lift last stamp clocks.now) }
{
    let put_back = clock_after_put_back(stamp);
    let mut found = Vec::new(alloc);
    for &clock in clocks {
        let lifted = clock.max(lift);
        if goes_on(lifted, last, stamp) && clock_after(lifted) != put_back {
            found.push(clock_after(lifted))?;
        }
    }
    found.push(put_back)?;
    Ok(found)
}
