//! Finds the unfounded events: their stamps have prev 0, though the process received before, or
//! stamped a lower count with another prev.

ghost use Rattle.std.specs.Prelude.{◌↔◌, ℕ, IsTrue, List};
ghost use Rattle.st_core.specs.declared.types.Pid.{Pid as PidValue};
ghost use Rattle.lack_pieces.specs.declared.placed_reason.Receipt.{Receipt as ReceiptValue};
ghost use Rattle.lack_pieces.specs.Firsts.{IsEarliest, IsFirstOfRank, StampsRise};
ghost use Rattle.lack_pieces.specs.Lowest.{IsKnownBelow, IsLowest, IsLowestIn, IsReceiptCounted};
ghost use Rattle.lack_pieces.specs.Lowest.{IsStampCounted, IsUnfoundedReceipt, IsUnfoundedStamp};
ghost use Rattle.lack_pieces.specs.Pieces.{Piece};
ghost use Rattle.lack_pieces.specs.Reasons.{HasStampBelow};
ghost use Rattle.lack_pieces.specs.Verdicts.{AreInOrder};

use crate::placed_reason::{PlacedReason, Receipt};
use crate::receipts::{has_count, least_with, next_stamp};
use lack_decide::Never;
use lack_needs::is_stamp;
use st_core::{Event, Pid};

/// The lowest counts with another prev than 0: of a process's sends and prints, and of the receives
/// of its messages.
#[derive(Clone, Copy, Debug)]
struct Lowest {
    stamps: Option<u64>,
    receipts: Option<u64>,
}

fn lowest_of_stamps(events: &[Event]) -> Option<u64>
    requires { StampsRise events.now }
    ensures { IsLowest (IsStampCounted events.now) result }
{
    for event in events {
        if is_stamp(event) && event.serial.prev != 0 {
            return Some(event.serial.this);
        }
    }
    None
}

fn lowest_of_receipts(receipts: &[Receipt]) -> Option<u64>
    requires { AreInOrder receipts.now }
    ensures { IsLowest (IsReceiptCounted receipts.now) result }
{
    for receipt in receipts {
        if receipt.event.serial.prev != 0 {
            return Some(receipt.event.serial.this);
        }
    }
    None
}

fn is_below(known: Option<u64>, count: u64) -> bool
    ensures { IsTrue result ↔ IsKnownBelow known count }
{
    match known {
        None => false,
        Some(known) => known < count,
    }
}

/// Returns whether an event shows that the process made a send or print with a lower count than
/// the given event's, and another prev than 0.
fn is_behind_stamp(lowest: Lowest, event: &Event) -> bool
    ensures { (piece : Piece) → IsLowestIn piece lowest
        → (IsTrue result ↔ HasStampBelow piece event.now) }
{
    is_below(lowest.stamps, event.serial.this) || is_below(lowest.receipts, event.serial.this)
}

fn find_unfounded_stamp(pid: Pid, events: &[Event], lowest: Lowest) -> Option<PlacedReason>
    ensures { (receipts : List ReceiptValue)
        → (let piece : Piece = record { pid = pid; events = events.now; receipts = receipts } in
        IsLowestIn piece lowest → IsEarliest (IsUnfoundedStamp piece) result) }
{
    let mut received = false;
    for (i, event) in events.iter().enumerate() {
        if !is_stamp(event) {
            received = true;
        } else if event.serial.prev == 0 && (received || is_behind_stamp(lowest, event)) {
            let never = Never::Unfounded;
            let index = i as u64;
            return Some(PlacedReason { pid, index, never });
        }
    }
    None
}

/// Returns the first receipt of an unreported send that is unfounded.
fn find_unfounded_receipt(
    events: &[Event],
    receipts: &[Receipt],
    lowest: Lowest,
) -> Option<PlacedReason>
    requires rise { StampsRise events.now }
    requires order { AreInOrder receipts.now }
    ensures { (pid : PidValue)
        → (let piece : Piece = record { pid = pid; events = events.now; receipts = receipts.now } in
        IsLowestIn piece lowest → IsEarliest (IsUnfoundedReceipt piece) result) }
{
    let mut least = None;
    let mut next = 0;
    for receipt in receipts {
        let count = receipt.event.serial.this;
        next = next_stamp(events, next, count);
        if receipt.event.serial.prev == 0
            && !has_count(events, next, count)
            && is_behind_stamp(lowest, &receipt.event)
        {
            least = Some(least_with(least, receipt.reason(Never::Unfounded)));
        }
    }
    least
}

/// Returns the first unfounded event: a send or print, or the receive of an unreported send.
pub(crate) fn find_unfounded(
    pid: Pid,
    events: &[Event],
    receipts: &[Receipt],
) -> Option<PlacedReason>
    requires rise { StampsRise events.now }
    requires order { AreInOrder receipts.now }
    ensures { (top : ℕ) → IsFirstOfRank top
        (record { pid = pid; events = events.now; receipts = receipts.now }) 5 result }
{
    let lowest = Lowest {
        stamps: lowest_of_stamps(events),
        receipts: lowest_of_receipts(receipts),
    };
    let stamp = find_unfounded_stamp(pid, events, lowest);
    match find_unfounded_receipt(events, receipts, lowest) {
        None => stamp,
        Some(receipt) => Some(least_with(stamp, receipt)),
    }
}
