//! Events that happened in every run without a reset, even if nobody reported them: receives that
//! were lost, and sends of messages that were received.

ghost use Rattle.std.specs.Prelude.{◌≡◌, ◌↔◌, ℕ, true, Some, IsTrue};
ghost use Rattle.st_core.specs.Streams.{events_of};
ghost use Rattle.st_pair.specs.Pairing.{is_send};
ghost use Rattle.st_pair.specs.Places.{event_at};
ghost use Rattle.lack_needs.specs.Additions.{receipt_of};
ghost use Rattle.lack_needs.specs.AllRuns.{HasEvent, HasLostReceive, HoldsInAllRuns};
ghost use Rattle.lack_needs.specs.Losses.{are_of_loss, event_before, is_behind, is_up_to};
ghost use Rattle.lack_needs.specs.Losses.{leaves_other, may_leave, rules_out_stamp};
ghost use Rattle.lack_needs.specs.Losses.{rules_out_told, shows_loss};

use crate::flaws::{is_stamp, prev_left};
use lack_laws::closed_world::runs_have_full_completions;
use lack_laws::open_world::with_silent_processes_streams_are_streams;
use st_core::{Event, Kind, Pid, Streams};

/// Returns the event of the process before an index.
fn event_before(streams: &Streams, pid: Pid, index: u64) -> Option<Event>
    ensures { result ≡ event_before (events_of streams.now pid) index }
{
    if index == 0 {
        return None;
    }
    streams.event(pid, index - 1)
}

/// Returns whether a send or print with this count is the next event, or certainly comes after the
/// event before, if there is one.
fn is_behind(before: Option<Event>, next: Option<Event>, count: u64) -> bool
    ensures { result ≡ is_behind before next count }
{
    if let Some(next) = next {
        if is_stamp(&next) && next.serial.this == count {
            return true;
        }
    }
    match before {
        None => true,
        Some(before) => is_stamp(&before) && before.serial.this < count,
    }
}

/// Returns whether a send or print with this count doesn't come after the next event.
fn is_up_to(next: Option<Event>, count: u64) -> bool
    ensures { result ≡ is_up_to next count }
{
    match next {
        None => true,
        Some(next) => next.serial.this >= count,
    }
}

/// Returns whether there is an event before, and it leaves another prev.
fn leaves_other(before: Option<Event>, prev: u64) -> bool
    ensures { result ≡ leaves_other before prev }
{
    match before {
        None => false,
        Some(before) => prev_left(&before) != prev,
    }
}

/// Returns whether the event before may leave the prev after a send or print with this count.
fn may_leave(before: Option<Event>, prev: u64, count: u64) -> bool
    ensures { result ≡ may_leave before prev count }
{
    match before {
        None => false,
        Some(before) if is_stamp(&before) => count < before.serial.this,
        Some(before) => before.serial.this == prev,
    }
}

/// Returns whether the event at `place` is an earlier one of the process with a count above the
/// prev, and the event before the index leaves another prev.
fn rules_out_told(
    before: Option<Event>,
    pid: Pid,
    index: u64,
    prev: u64,
    place: (Pid, u64),
    event: &Event,
) -> bool
    ensures { result ≡ rules_out_told before pid index prev place event.now }
{
    place.0 == pid && (place.1 < index && (prev < event.serial.this && leaves_other(before, prev)))
}

/// Returns whether the event tells of a send or print of the process with another prev and a count
/// between the prev and `count`, after which the event before the index can't leave the prev.
fn rules_out_stamp(before: Option<Event>, pid: Pid, prev: u64, count: u64, event: &Event) -> bool
    ensures { result ≡ rules_out_stamp before pid prev count event.now }
{
    let Event { from, serial, .. } = *event;
    if from != pid || serial.prev == prev || prev >= serial.this || serial.this >= count {
        return false;
    }
    !may_leave(before, prev, serial.this)
}

fn is_shown(
    streams: &Streams,
    pid: Pid,
    index: u64,
    count: u64,
    stamp: &Event,
    place: (Pid, u64),
    other: &Event,
) -> bool
    ensures { result ≡ are_of_loss (events_of streams.now pid) pid index count stamp.now place
        other.now }
{
    let Event { from, serial, .. } = *stamp;
    if from != pid || serial.prev != count {
        return false;
    }
    let before = event_before(streams, pid, index);
    let next = streams.event(pid, index);
    if !is_behind(before, next, serial.this) || !is_up_to(next, serial.this) {
        return false;
    }
    rules_out_told(before, pid, index, count, place, other)
        || rules_out_stamp(before, pid, count, serial.this, other)
}

fn are_shown(
    streams: &Streams,
    pid: Pid,
    index: u64,
    count: u64,
    stamp: (Pid, u64),
    other: (Pid, u64),
) -> bool
    ensures { result ≡ shows_loss streams.now pid index count stamp other }
{
    if index > streams.len(pid) {
        return false;
    }
    let Some(shown) = streams.event(stamp.0, stamp.1) else {
        return false;
    };
    let Some(apart) = streams.event(other.0, other.1) else {
        return false;
    };
    is_shown(streams, pid, index, count, &shown, other, &apart)
}

/// Returns whether two reported events show that the process received a message with this count
/// between its reported events `index - 1` and `index`, and didn't report it. The event at `stamp`
/// tells of a send or print with the count as its prev; the event at `other` rules out that an
/// earlier event left this prev, or that a trace began with it.
pub fn shows_loss(
    streams: &Streams,
    pid: Pid,
    index: u64,
    count: u64,
    stamp: (Pid, u64),
    other: (Pid, u64),
) -> bool
    ensures shown { result ≡ shows_loss streams.now pid index count stamp other }
    ensures lost { result ≡ true → (top : ℕ)
        → HoldsInAllRuns top streams.now pid (HasLostReceive index count) }
{
    let is_streams = streams.pids();
    runs_have_full_completions();
    with_silent_processes_streams_are_streams();
    are_shown(streams, pid, index, count, stamp, other)
}

/// Returns the receive of a send.
pub fn receive_of(sent: &Event) -> Event
    ensures { result ≡ receipt_of sent.now }
{
    Event {
        kind: Kind::Receive,
        ..*sent
    }
}

fn is_send(event: &Event) -> bool
    ensures { result ≡ is_send event.now }
{
    match event.kind {
        Kind::Send => true,
        Kind::Receive | Kind::Print => false,
    }
}

fn is_received(streams: &Streams, event: &Event, receive: (Pid, u64)) -> bool
    ensures { IsTrue result ↔ (is_send event.now ≡ true)
        × (event_at streams.now receive.0 receive.1 ≡ Some (receipt_of event.now)) }
{
    if !is_send(event) {
        return false;
    }
    match streams.event(receive.0, receive.1) {
        None => false,
        Some(received) => received == receive_of(event),
    }
}

/// Returns whether the event is a send, and the reported event at `receive` its receive. If so,
/// every run has the send.
pub fn is_sent(streams: &Streams, event: &Event, receive: (Pid, u64)) -> bool
    ensures received { IsTrue result ↔ (is_send event.now ≡ true)
        × (event_at streams.now receive.0 receive.1 ≡ Some (receipt_of event.now)) }
    ensures sent { result ≡ true → (top : ℕ)
        → HoldsInAllRuns top streams.now event.now.from (HasEvent event.now) }
{
    let is_streams = streams.pids();
    runs_have_full_completions();
    with_silent_processes_streams_are_streams();
    is_received(streams, event, receive)
}
