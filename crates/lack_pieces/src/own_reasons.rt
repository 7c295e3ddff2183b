//! Finds the reasons that a process's own events alone show.

ghost use Rattle.std.specs.Prelude.{◌≤◌, ℕ, length, IfNone, List};
ghost use Rattle.lack_pieces.specs.Firsts.{IsFirstOfRank, IsLastReceive, StampsRise};
ghost use Rattle.lack_pieces.specs.declared.placed_reason.Receipt.{Receipt as ReceiptValue};

use crate::placed_reason::PlacedReason;
use lack_decide::Never;
use lack_needs::is_stamp;
use st_core::{Event, Pid};

/// Returns the first event whose count isn't above its prev.
pub(crate) fn find_prev_not_before(pid: Pid, events: &[Event]) -> Option<PlacedReason>
    ensures { (top : ℕ) (receipts : List ReceiptValue) → IsFirstOfRank top
        (record { pid = pid; events = events.now; receipts = receipts }) 0 result }
{
    for (i, event) in events.iter().enumerate() {
        if event.serial.this <= event.serial.prev {
            let never = Never::PrevNotBefore;
            let index = i as u64;
            return Some(PlacedReason { pid, index, never });
        }
    }
    None
}

/// Returns the first send or print whose count isn't above that of the one before it.
pub(crate) fn find_not_rising(pid: Pid, events: &[Event]) -> Option<PlacedReason>
    ensures first { (top : ℕ) (receipts : List ReceiptValue) → IsFirstOfRank top
        (record { pid = pid; events = events.now; receipts = receipts }) 1 result }
    ensures rise { IfNone result (StampsRise events.now) }
{
    let mut last = None;
    for (i, event) in events.iter().enumerate() {
        if is_stamp(event) {
            if let Some((index, count)) = last {
                if event.serial.this <= count {
                    let never = Never::NotRising(index);
                    let index = i as u64;
                    return Some(PlacedReason { pid, index, never });
                }
            }
            last = Some((i as u64, event.serial.this));
        }
    }
    None
}

/// Returns the index of the last receive before `index` whose count is at least `count`.
fn last_receive(events: &[Event], index: usize, count: u64) -> Option<usize>
    requires { index ≤ length events.now }
    ensures { IsLastReceive events.now index count result }
{
    let mut last = None;
    for i in 0..index {
        if !is_stamp(&events[i]) && count <= events[i].serial.this {
            last = Some(i);
        }
    }
    last
}

/// Returns the first send or print whose count isn't above that of a receive before it.
pub(crate) fn find_late(pid: Pid, events: &[Event]) -> Option<PlacedReason>
    ensures { (top : ℕ) (receipts : List ReceiptValue) → IsFirstOfRank top
        (record { pid = pid; events = events.now; receipts = receipts }) 4 result }
{
    let mut highest = 0;
    for (i, event) in events.iter().enumerate() {
        let count = event.serial.this;
        if !is_stamp(event) {
            highest = count.max(highest);
        } else if count <= highest {
            if let Some(index) = last_receive(events, i, count) {
                let never = Never::Late(index as u64);
                let index = i as u64;
                return Some(PlacedReason { pid, index, never });
            }
        }
    }
    None
}

/// Returns the first event with a count that no clock has.
pub(crate) fn find_too_high<const TOP: u64>(pid: Pid, events: &[Event]) -> Option<PlacedReason>
    ensures { (receipts : List ReceiptValue) → IsFirstOfRank TOP
        (record { pid = pid; events = events.now; receipts = receipts }) 6 result }
{
    for (i, event) in events.iter().enumerate() {
        if TOP < event.serial.this {
            let never = Never::TooHigh;
            let index = i as u64;
            return Some(PlacedReason { pid, index, never });
        }
    }
    None
}
