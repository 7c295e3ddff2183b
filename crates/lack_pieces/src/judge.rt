//! `judge_piece` finds the verdict on a piece, one kind of reason after the other.

ghost use Rattle.lack_pieces.specs.Verdicts.{AreInOrder, IsVerdictIn};

use crate::own_reasons::{find_late, find_not_rising, find_prev_not_before, find_too_high};
use crate::placed_reason::{PlacedReason, Receipt};
use crate::receipts::{find_mismatch, find_repeated};
use crate::unfounded_events::find_unfounded;
use st_core::{Event, Pid};

/// Returns the first reason that holds in the piece of a process, or none: the piece is its
/// events, and the receives of its messages by rising count and then by rising place. Takes time
/// in proportion to both, and no memory.
pub fn judge_piece<const TOP: u64>(
    pid: Pid,
    events: &[Event],
    receipts: &[Receipt],
) -> Option<PlacedReason>
    requires { AreInOrder receipts.now }
    ensures { IsVerdictIn TOP
        (record { pid = pid; events = events.now; receipts = receipts.now }) result }
{
    if let Some(found) = find_prev_not_before(pid, events) {
        return Some(found);
    }
    if let Some(found) = find_not_rising(pid, events) {
        return Some(found);
    }
    if let Some(found) = find_repeated(receipts) {
        return Some(found);
    }
    if let Some(found) = find_mismatch(pid, events, receipts) {
        return Some(found);
    }
    if let Some(found) = find_late(pid, events) {
        return Some(found);
    }
    if let Some(found) = find_unfounded(pid, events, receipts) {
        return Some(found);
    }
    find_too_high::<TOP>(pid, events)
}
