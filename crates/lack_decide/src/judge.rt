//! The judge of candidates, which decides whether whole streams are a completion.

ghost use Rattle.std.specs.Prelude.{◌≡◌, ◌↔◌, true, false, IfOk, IsTrue};
ghost use Rattle.std.specs.List.{AllByRecursion};
ghost use Rattle.std.specs.Option.{ForSome};
ghost use Rattle.st_core.specs.Pid.{IsRising};
ghost use Rattle.st_core.specs.Run.{pids_of};
ghost use Rattle.st_core.specs.Streams.{lists, IsStreams};
ghost use Rattle.lack_laws.specs.Silent.{with_silent};
ghost use Rattle.st_pair.specs.Pairing.{is_send};
ghost use Rattle.st_pair.specs.Places.{is_stamp};
ghost use Rattle.lack_laws.specs.Local.{IsNeedless};
ghost use Rattle.st_plan.specs.Marks.{told_events, told_streams};
ghost use Rattle.lack_needs.specs.Completions.{marked_with, wholes_with, Completes};
ghost use Rattle.lack_needs.specs.Additions.{receipt_of};
ghost use Rattle.lack_decide.specs.Links.{other_end, AreEventsFit, IsLinked};

use crate::additions::are_additions_needed;
use lack_needs::{
    Completion, Left, completion_of, is_marked, is_unlisted, marks_at, pids_with, receive_of,
};
use lack_search::Candidate;
use st_core::{Event, Kind, Pid, Sequence, Streams, is_rising};
use std::alloc::{AllocError, Global};

fn is_same_event(event: &Event, other: &Event) -> bool
    ensures { IsTrue result ↔ (event.now ≡ other.now) }
{
    *event == *other
}

fn is_same_pid(pid: Pid, other: Pid) -> bool
    ensures { IsTrue result ↔ (pid ≡ other) }
{
    pid == other
}

/// Returns whether the marked ones among all events of a process are the given events.
fn tells_events(all: &[Event], marks: &[bool], events: &[Event]) -> bool
    ensures { result ≡ true → told_events (marked_with all.now marks.now) ≡ events.now }
{
    let mut rest = events;
    for (i, event) in all.iter().enumerate() {
        if is_marked(marks, i) {
            let Some((first, others)) = rest.split_first() else {
                return false;
            };
            if !is_same_event(first, event) {
                return false;
            }
            rest = others;
        }
    }
    rest.is_empty()
}

/// Returns whether the marked events are those of the streams, and the unlisted processes have
/// none; `pids` has the pids of both.
fn tells_streams(
    all: &Streams,
    lists: &[Sequence<bool>],
    streams: &Streams,
    unlisted: &[Pid],
    pids: &[Pid],
) -> bool
    requires { pids.now ≡ pids_of (with_silent streams.now unlisted.now) }
    ensures told { result ≡ true → told_streams (wholes_with all.now lists.now)
        ≡ with_silent streams.now unlisted.now }
    ensures streams { IsStreams all.now }
{
    let _pids = streams.pids();
    let _unlisted = unlisted;
    let all_pids = all.pids();
    if all_pids.len() != pids.len() {
        return false;
    }
    for (place, &pid) in pids.iter().enumerate() {
        if !is_same_pid(all_pids[place], pid) {
            return false;
        }
        let marks = marks_at(lists, place);
        if !tells_events(all.events(pid), marks, streams.events(pid)) {
            return false;
        }
    }
    true
}

/// Returns the link of an event, which is the index of the other end of its message; 0 if there is
/// none. `place` is that of its process.
pub(crate) fn other_end(links: &[Sequence<u32>], place: usize, index: usize) -> u32
    ensures { result ≡ other_end links.now place index }
{
    match links.get(place) {
        None => 0,
        Some(row) => row.as_slice().get(index).copied().unwrap_or(0),
    }
}

/// Returns whether `sent` is a send, and the event its receive.
fn is_received(sent: &Event, event: &Event) -> bool
    ensures sends { result ≡ true → is_send sent.now ≡ true }
    ensures same { result ≡ true → receipt_of sent.now ≡ event.now }
{
    match sent.kind {
        Kind::Receive | Kind::Print => false,
        Kind::Send => is_same_event(&receive_of(sent), event),
    }
}

/// Returns whether the event at `link` is the send of the receive at `index`, and links back to
/// it.
fn is_linked(
    streams: &Streams,
    links: &[Sequence<u32>],
    index: usize,
    link: u32,
    event: &Event,
) -> bool
    ensures { result ≡ true → IsLinked streams.now links.now index event.now }
{
    let Some(place) = streams.place_of(event.from) else {
        return false;
    };
    let Some(sent) = streams.event(event.from, u64::from(link)) else {
        return false;
    };
    is_received(&sent, event) && other_end(links, place, link as usize) as usize == index
}

/// Returns whether the event is no receive, or is linked to its send.
fn has_send(
    streams: &Streams,
    links: &[Sequence<u32>],
    place: usize,
    index: usize,
    event: &Event,
) -> bool
    ensures { result ≡ true → is_stamp event.now ≡ false
        → IsLinked streams.now links.now index event.now }
{
    match event.kind {
        Kind::Send | Kind::Print => true,
        Kind::Receive => {
            let link = other_end(links, place, index);
            is_linked(streams, links, index, link, event)
        }
    }
}

/// Returns whether all events of a process are fit; `place` is that of the process.
fn are_fit(
    streams: &Streams,
    links: &[Sequence<u32>],
    top: u64,
    place: usize,
    events: &[Event],
) -> bool
    ensures { result ≡ true → AreEventsFit top streams.now links.now events.now }
{
    let mut left = Left::by_none();
    for (i, event) in events.iter().enumerate() {
        if !left.goes_on(event, top) || !has_send(streams, links, place, i, event) {
            return false;
        }
        left = left.after(event);
    }
    true
}

/// Returns whether all events are fit: each goes on from those before it, and each receive and its
/// send are linked to each other. Then nothing is needed in the streams: pairing accepts them, no
/// send is hidden, and no event is late, a need or above TOP.
fn are_all_fit(streams: &Streams, links: &[Sequence<u32>], top: u64) -> bool
    ensures { result ≡ true → IsNeedless top streams.now }
{
    for (place, &pid) in streams.pids().iter().enumerate() {
        if !are_fit(streams, links, top, place, streams.events(pid)) {
            return false;
        }
    }
    true
}

/// Returns whether the streams list none of the processes, and the pids rise.
fn are_apart(streams: &Streams, unlisted: &[Pid]) -> bool
    ensures apart { result ≡ true
        → AllByRecursion (λ q. lists streams.now q ≡ false) unlisted.now }
    ensures rising { result ≡ true → IsRising unlisted.now }
{
    for &pid in unlisted {
        if !is_unlisted(streams, pid) {
            return false;
        }
    }
    is_rising(unlisted)
}

/// Returns whether the marked events are those of the streams, and the unlisted processes have
/// none.
fn tells_with(
    alloc: Global,
    all: &Streams,
    marks: &[Sequence<bool>],
    streams: &Streams,
    unlisted: &[Pid],
) -> Result<bool, AllocError>
    requires apart { AllByRecursion (λ q. lists streams.now q ≡ false) unlisted.now }
    requires rising { IsRising unlisted.now }
    ensures told { IfOk result (λ yes. yes ≡ true → told_streams (wholes_with all.now marks.now)
        ≡ with_silent streams.now unlisted.now) }
    ensures streams { IsStreams all.now }
{
    let _all = all.pids();
    let pids = pids_with(alloc, streams, unlisted)?;
    Ok(tells_streams(all, marks, streams, unlisted, &pids))
}

/// Returns the candidate as a completion of the streams, if it is one.
pub(crate) fn judge<const TOP: u64>(
    alloc: Global,
    streams: &Streams,
    candidate: Candidate,
) -> Result<Option<Completion>, AllocError>
    ensures { IfOk result (λ found. ForSome found (Completes TOP streams.now)) }
{
    let Candidate {
        streams: all,
        told,
        links,
        unlisted,
    } = candidate;
    if !are_apart(streams, &unlisted)
        || !tells_with(alloc, &all, &told, streams, &unlisted)?
        || !are_all_fit(&all, &links, TOP)
        || !are_additions_needed(&all, &links, &told)
    {
        return Ok(None);
    }
    Ok(Some(completion_of(streams, all, told, unlisted)))
}
