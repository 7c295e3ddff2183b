//! Finds the reasons that the receives of a process's messages show, with its own events.

ghost use Rattle.std.specs.Prelude.{◌↔◌, ◌≤◌, ℕ, length, IsTrue, List};
ghost use Rattle.st_core.specs.declared.types.Event.{Event as EventValue};
ghost use Rattle.st_core.specs.declared.types.Pid.{Pid as PidValue};
ghost use Rattle.lack_decide.specs.Answers.{IsSendOf};
ghost use Rattle.lack_pieces.specs.Firsts.{IsFirstOfRank, HasCount, IsFirstWith, IsNextStamp};
ghost use Rattle.lack_pieces.specs.Firsts.{StampsRise};
ghost use Rattle.lack_pieces.specs.Verdicts.{AreInOrder};

use crate::placed_reason::{PlacedReason, Receipt, earlier_of};
use lack_decide::Never;
use lack_needs::is_stamp;
use st_core::{Event, Kind, Pid};

/// Returns the reason that comes first: the one so far, if there is one, or the next.
pub(crate) fn least_with(least: Option<PlacedReason>, next: PlacedReason) -> PlacedReason
    ensures { IsFirstWith least next result }
{
    match least {
        None => next,
        Some(found) => earlier_of(found, next),
    }
}

/// Returns the first receipt of a message that was received before.
pub(crate) fn find_repeated(receipts: &[Receipt]) -> Option<PlacedReason>
    requires { AreInOrder receipts.now }
    ensures { (top : ℕ) (pid : PidValue) (events : List EventValue) → IsFirstOfRank top
        (record { pid = pid; events = events; receipts = receipts.now }) 2 result }
{
    let mut least = None;
    for i in 1..receipts.len() {
        let before = receipts[i - 1];
        let receipt = receipts[i];
        if before.event.serial.this == receipt.event.serial.this {
            let never = Never::Repeated(before.pid, before.index);
            least = Some(least_with(least, receipt.reason(never)));
        }
    }
    least
}

/// Returns whether an event is the send of a receive, apart from their counts and senders.
fn is_send_of(sent: &Event, received: &Event) -> bool
    ensures { IsTrue result ↔ IsSendOf sent.now received.now }
{
    let is_send = match sent.kind {
        Kind::Send => true,
        Kind::Receive | Kind::Print => false,
    };
    is_send
        && sent.label == received.label
        && sent.serial.prev == received.serial.prev
        && sent.to == received.to
        && sent.value == received.value
}

/// Returns the index of the next send or print from `from` on whose count is at least `count`, or
/// the number of events if there is none.
pub(crate) fn next_stamp(events: &[Event], from: usize, count: u64) -> usize
    requires { from ≤ length events.now }
    ensures { IsNextStamp events.now from count result }
{
    for i in from..events.len() {
        if is_stamp(&events[i]) && count <= events[i].serial.this {
            return i;
        }
    }
    events.len()
}

pub(crate) fn has_count(events: &[Event], index: usize, count: u64) -> bool
    ensures { HasCount events.now index count result }
{
    index < events.len() && events[index].serial.this == count
}

/// Returns the first receipt whose count is that of a send or print which isn't its send.
pub(crate) fn find_mismatch(
    pid: Pid,
    events: &[Event],
    receipts: &[Receipt],
) -> Option<PlacedReason>
    requires rise { StampsRise events.now }
    requires order { AreInOrder receipts.now }
    ensures { (top : ℕ) → IsFirstOfRank top
        (record { pid = pid; events = events.now; receipts = receipts.now }) 3 result }
{
    let mut least = None;
    let mut next = 0;
    for receipt in receipts {
        let count = receipt.event.serial.this;
        next = next_stamp(events, next, count);
        if has_count(events, next, count) && !is_send_of(&events[next], &receipt.event) {
            let never = Never::Mismatch(pid, next as u64);
            least = Some(least_with(least, receipt.reason(never)));
        }
    }
    least
}
