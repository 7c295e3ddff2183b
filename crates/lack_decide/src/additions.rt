//! Tests whether a completion adds only events that other events need.

ghost use Rattle.std.specs.Prelude.{◌≡◌, ◌+◌, ◌<◌, ◌≤◌, ℕ, true, false, get_or, length, slice_get};
ghost use Rattle.std.specs.Prelude.{Some};
ghost use Rattle.st_core.specs.declared.types.Event.{Event as EventValue};
ghost use Rattle.st_pair.specs.Pairing.{is_send};
ghost use Rattle.st_pair.specs.Places.{is_stamp};
ghost use Rattle.lack_needs.specs.Additions.{AreAdditionsNeeded, IsReceived};
ghost use Rattle.lack_needs.specs.Completions.{wholes_with};
ghost use Rattle.lack_decide.specs.Needed.{AreNeeded, IsNeededAmong, IsNextOf};

use crate::judge::other_end;
use lack_needs::{is_marked, is_sent, is_stamp, marks_at};
use st_core::{Event, Kind, Sequence, Streams};

/// Returns the index after the last mark that is set; 0 if none is.
fn told_end(marks: &[bool]) -> usize
    ensures { (k : ℕ) → result ≤ k → get_or marks.now k false ≡ false }
{
    let mut end = 0;
    for (i, mark) in marks.iter().enumerate() {
        if *mark {
            end = i + 1;
        }
    }
    end
}

/// Returns whether the event is a send whose link leads to its receive.
fn is_sent_for(
    streams: &Streams,
    links: &[Sequence<u32>],
    place: usize,
    index: usize,
    sent: &Event,
) -> bool
    ensures sends { result ≡ true → is_send sent.now ≡ true }
    ensures received { result ≡ true → IsReceived streams.now sent.now }
{
    let Some(to) = sent.to else {
        return false;
    };
    let receive = other_end(links, place, index);
    is_sent(streams, sent, (to, u64::from(receive)))
}

/// Returns whether a send or print comes right after the index and has the count as its prev.
fn is_followed(events: &[Event], index: usize, this: u64) -> bool
    requires { index < length events.now }
    ensures { result ≡ true → IsNextOf events.now index this }
{
    match events.get(index + 1) {
        None => false,
        Some(next) => is_stamp(next) && next.serial.prev == this,
    }
}

/// Returns whether an event that a completion adds is needed; no event from `end` on is told.
fn is_needed(
    streams: &Streams,
    links: &[Sequence<u32>],
    place: usize,
    events: &[Event],
    marks: &[bool],
    end: usize,
    index: usize,
) -> bool
    requires within { index < length events.now }
    requires end { (k : ℕ) → end ≤ k → get_or marks.now k false ≡ false }
    ensures { result ≡ true → (e : EventValue) → slice_get events.now index ≡ Some e
        → IsNeededAmong streams.now events.now marks.now index e }
{
    let _marks = marks;
    let event = &events[index];
    match event.kind {
        Kind::Print => false,
        Kind::Send => is_sent_for(streams, links, place, index, event),
        Kind::Receive => end <= index + 1 || is_followed(events, index, event.serial.this),
    }
}

/// Returns whether each untold event of a process is needed; `place` is that of the process.
fn are_needed(
    streams: &Streams,
    links: &[Sequence<u32>],
    place: usize,
    events: &[Event],
    marks: &[bool],
) -> bool
    ensures { result ≡ true → AreNeeded streams.now events.now marks.now }
{
    let end = told_end(marks);
    for index in 0..events.len() {
        if !is_marked(marks, index)
            && !is_needed(streams, links, place, events, marks, end, index)
        {
            return false;
        }
    }
    true
}

/// Returns whether each untold event is needed. It looks at each event once.
pub(crate) fn are_additions_needed(
    streams: &Streams,
    links: &[Sequence<u32>],
    lists: &[Sequence<bool>],
) -> bool
    ensures { result ≡ true → AreAdditionsNeeded (wholes_with streams.now lists.now) }
{
    for (place, &pid) in streams.pids().iter().enumerate() {
        let marks = marks_at(lists, place);
        if !are_needed(streams, links, place, streams.events(pid), marks) {
            return false;
        }
    }
    true
}
