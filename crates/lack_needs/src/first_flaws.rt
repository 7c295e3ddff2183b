//! Finds the first event with a flaw.

ghost use Rattle.std.specs.Prelude.{◌≡◌, IfNone, IfSome};
ghost use Rattle.st_pair.specs.Places.{first, first_from};
ghost use Rattle.lack_needs.specs.Flaws.{test_of};
ghost use Rattle.lack_laws.specs.Needs.{HoldsOfNone};
ghost use Rattle.lack_laws.specs.Reasons.{HoldsAt};
ghost use Rattle.lack_laws.specs.OpenReasons.{IsLeastPlace};
ghost use Rattle.lack_needs.specs.Places.{flaw_place, place_where};

use crate::flaws::{Flaw, Left};
use st_core::{Event, Pid, Streams};

fn first_in(pid: Pid, events: &[Event], flaw: Flaw) -> Option<(Pid, u64)>
    ensures { result ≡ first_from (place_where (test_of flaw) events.now) pid 0 events.now }
{
    let mut left = Left::by_none();
    for (i, event) in events.iter().enumerate() {
        if left.flaws(event, flaw) {
            return Some((pid, i as u64));
        }
        left = left.after(event);
    }
    None
}

fn first_flaw(streams: &Streams, flaw: Flaw) -> Option<(Pid, u64)>
    ensures { result ≡ first (flaw_place (test_of flaw) streams.now) streams.now }
{
    for &pid in streams.pids() {
        if let Some(place) = first_in(pid, streams.events(pid), flaw) {
            return Some(place);
        }
    }
    None
}

/// Returns the place of the first event with the flaw, by rising pid and then index; `None` if no
/// event has it. It looks at each event once.
pub fn find_flaw(streams: &Streams, flaw: Flaw) -> Option<(Pid, u64)>
    ensures some { IfSome result
        (λ at. IsLeastPlace (HoldsAt (test_of flaw) streams.now) at.0 at.1) }
    ensures none { IfNone result (HoldsOfNone (test_of flaw) streams.now) }
{
    let is_streams = streams.pids();
    match first_flaw(streams, flaw) {
        None => None,
        Some(place) => Some(place),
    }
}
