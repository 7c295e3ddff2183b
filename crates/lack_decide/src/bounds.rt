//! Counts the acts that surely suffice for a completion.

ghost use Rattle.std.specs.Prelude.{◌≡◌, [], List};
ghost use Rattle.st_core.specs.declared.types.Event.{Event as EventValue};
ghost use Rattle.lack_needs.specs.Flaws.{left_by};
ghost use Rattle.lack_decide.specs.Bounds.{act_bound, acts_after, saturated, skipped};

use lack_needs::Left;
use st_core::{Event, Kind, Streams};

/// The most acts that an event takes, besides silent prints: three that begin a trace, two that
/// give the token its label and flags, and the stamp's own.
const ACTS_OF_EVENT: u64 = 6;

/// Returns how many counts a process passes unreported before an event.
fn skipped(left: Left, event: &Event) -> u64
    ensures { (es : List EventValue) → left ≡ left_by es → result ≡ skipped es event.now }
{
    match event.kind {
        Kind::Receive => 0,
        Kind::Send | Kind::Print => event
            .serial
            .this
            .saturating_sub(1)
            .saturating_sub(left.greatest),
    }
}

/// Returns how many acts surely suffice for the events of a process; the greatest number if there
/// are more.
fn acts_of_events(events: &[Event]) -> u64
    ensures { result ≡ saturated (acts_after [] events.now) }
{
    let mut left = Left::by_none();
    let mut count: u64 = 0;
    for event in events {
        let more = ACTS_OF_EVENT.saturating_add(skipped(left, event));
        count = count.saturating_add(more);
        left = left.after(event);
    }
    count
}

/// Returns how many acts surely suffice for all events; the greatest number if there are more.
pub(crate) fn act_bound(streams: &Streams) -> u64
    ensures { result ≡ saturated (act_bound streams.now) }
{
    let mut count: u64 = 0;
    for &pid in streams.pids() {
        let more = acts_of_events(streams.events(pid)).saturating_add(1);
        count = count.saturating_add(more);
    }
    count
}
