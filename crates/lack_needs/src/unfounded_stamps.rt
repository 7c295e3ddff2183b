//! Stamps with prev 0 that can't begin a trace. Each event tells of a send or print: a send or
//! print of itself, a receive of the send of its message. No acts without a reset show the streams
//! if a stamp with prev 0 comes after a receive, or after a stamp of its process with a lower
//! count and another prev.

ghost use Rattle.std.specs.Prelude.{◌≡◌, ◌||◌, ℕ, true, not, IfNone, IfOk, IfSome, List, None};
ghost use Rattle.std.specs.Prelude.{Option, Some};
ghost use Rattle.st_core.specs.declared.types.Event.{Event as EventValue};
ghost use Rattle.st_core.specs.declared.types.Pid.{Pid as PidValue};
ghost use Rattle.st_core.specs.Run.{pids_of};
ghost use Rattle.st_core.specs.Streams.{events_of, lists};
ghost use Rattle.st_pair.specs.Links.{IsPairing};
ghost use Rattle.st_pair.specs.Places.{event_at, first, first_from, is_stamp};
ghost use Rattle.lack_needs.specs.Hidden.{is_hidden_in};
ghost use Rattle.lack_needs.specs.Places.{flaw_place, place_where};
ghost use Rattle.lack_needs.specs.Unfounded.{has_receive, is_known_below, is_unfounded};
ghost use Rattle.lack_needs.specs.Unfounded.{lower_count};
ghost use Rattle.lack_needs.specs.Unfounded.{lowest_count, lowest_in, lowest_with, IsNoted};
ghost use Rattle.lack_laws.specs.OpenReasons.{IsLeastPlace, IsUnfounded};

use crate::flaws::is_stamp;
use st_core::{Event, Pid, Streams};
use st_pair::{Pairing, Source};
use std::alloc::{AllocError, Global};

fn is_hidden_source(source: Option<Source>) -> bool
    ensures { result ≡ is_hidden_in source }
{
    match source {
        None | Some(Source::Event(..)) => false,
        Some(Source::Hidden) => true,
    }
}

/// Returns the lower of a count and the lowest one that is known.
fn lower_count(low: Option<u64>, count: u64) -> u64
    ensures { result ≡ lower_count low count }
{
    match low {
        None => count,
        Some(known) => known.min(count),
    }
}

fn is_known_below(low: Option<u64>, count: u64) -> bool
    ensures { result ≡ is_known_below low count }
{
    match low {
        None => false,
        Some(known) => known < count,
    }
}

/// Notes the count of the stamp that the event tells of, if its prev isn't 0. `lows` has the
/// lowest noted count of each process, by its place.
fn note_event(lows: &mut Vec<Option<u64>>, streams: &Streams, event: &Event)
    ensures { (low : PidValue → Option ℕ) → IsNoted (pids_of streams.now) low lows.old.items
        → IsNoted (pids_of streams.now) (λ q. lowest_with q (low q) event.now) lows.new.items }
{
    let _pids = streams.pids();
    if event.serial.prev == 0 {
        return;
    }
    let Some(place) = streams.place_of(event.from) else {
        return;
    };
    if place < lows.len() {
        lows[place] = Some(lower_count(lows[place], event.serial.this));
    }
}

fn note_events(lows: &mut Vec<Option<u64>>, streams: &Streams, events: &[Event])
    ensures { (low : PidValue → Option ℕ) → IsNoted (pids_of streams.now) low lows.old.items
        → IsNoted (pids_of streams.now) (λ q. lowest_in q (low q) events.now) lows.new.items }
{
    for event in events {
        note_event(lows, streams, event);
    }
}

/// Returns for each process, by its place, the lowest count among its stamps with another prev
/// than 0, as far as events tell of them.
fn lowest_counts(alloc: Global, streams: &Streams) -> Result<Vec<Option<u64>>, AllocError>
    ensures { IfOk result (λ lows.
        IsNoted (pids_of streams.now) (lowest_count streams.now) lows.items) }
{
    let mut lows = vec![in alloc; None; streams.pids().len()]?;
    for &pid in streams.pids() {
        note_events(&mut lows, streams, streams.events(pid));
    }
    Ok(lows)
}

/// Returns the lowest noted count of a listed process.
fn lowest_at(streams: &Streams, lows: &[Option<u64>], pid: Pid) -> Option<u64>
    requires noted { IsNoted (pids_of streams.now) (lowest_count streams.now) lows.now }
    requires listed { lists streams.now pid ≡ true }
    ensures { result ≡ lowest_count streams.now pid }
{
    let _pids = streams.pids();
    let Some(place) = streams.place_of(pid) else {
        unreachable!()
    };
    let Some(low) = lows.get(place) else {
        unreachable!()
    };
    *low
}

/// Returns whether some event tells of a stamp of the same sender with a lower count and another
/// prev than 0.
fn is_behind_stamp(streams: &Streams, lows: &[Option<u64>], event: &Event) -> bool
    requires noted { IsNoted (pids_of streams.now) (lowest_count streams.now) lows.now }
    requires listed { lists streams.now event.now.from ≡ true }
    ensures { result ≡ is_known_below
        (lowest_count streams.now event.now.from) event.now.serial.this }
{
    is_known_below(lowest_at(streams, lows, event.from), event.serial.this)
}

/// Returns whether the event is unfounded; `received` says whether a receive of its process comes
/// before it.
fn is_unfounded(
    streams: &Streams,
    pairing: &Pairing,
    lows: &[Option<u64>],
    place: (Pid, u64),
    event: &Event,
    received: bool,
) -> bool
    requires paired { IsPairing streams.now pairing.now }
    requires at { event_at streams.now place.0 place.1 ≡ Some event.now }
    requires noted { IsNoted (pids_of streams.now) (lowest_count streams.now) lows.now }
    ensures { (es : List EventValue) → received ≡ has_receive es
        → result ≡ is_unfounded streams.now es event.now }
{
    let _pids = streams.pids();
    if event.serial.prev != 0 {
        return false;
    }
    if is_stamp(event) {
        return received || is_behind_stamp(streams, lows, event);
    }
    is_hidden_source(pairing.source(place.0, place.1)) && is_behind_stamp(streams, lows, event)
}

fn is_received(received: bool, event: &Event) -> bool
    ensures { result ≡ (received || not (is_stamp event.now)) }
{
    received || !is_stamp(event)
}

fn first_in(
    streams: &Streams,
    pairing: &Pairing,
    lows: &[Option<u64>],
    pid: Pid,
    events: &[Event],
) -> Option<(Pid, u64)>
    requires paired { IsPairing streams.now pairing.now }
    requires own { events.now ≡ events_of streams.now pid }
    requires noted { IsNoted (pids_of streams.now) (lowest_count streams.now) lows.now }
    ensures { result
        ≡ first_from (place_where (is_unfounded streams.now) events.now) pid 0 events.now }
{
    let mut received = false;
    for (i, event) in events.iter().enumerate() {
        if is_unfounded(streams, pairing, lows, (pid, i as u64), event, received) {
            return Some((pid, i as u64));
        }
        received = is_received(received, event);
    }
    None
}

fn first_unfounded(streams: &Streams, pairing: &Pairing, lows: &[Option<u64>]) -> Option<(Pid, u64)>
    requires paired { IsPairing streams.now pairing.now }
    requires noted { IsNoted (pids_of streams.now) (lowest_count streams.now) lows.now }
    ensures { result ≡ first (flaw_place (is_unfounded streams.now) streams.now) streams.now }
{
    for &pid in streams.pids() {
        if let Some(place) = first_in(streams, pairing, lows, pid, streams.events(pid)) {
            return Some(place);
        }
    }
    None
}

/// Returns the first place of a stamp with prev 0 that can't begin a trace; a hidden send has the
/// place of its receive. It looks at each event twice, and fails if memory runs out.
pub fn find_unfounded(
    alloc: Global,
    streams: &Streams,
    pairing: &Pairing,
) -> Result<Option<(Pid, u64)>, AllocError>
    requires paired { IsPairing streams.now pairing.now }
    ensures some { IfOk result (λ found.
        IfSome found (λ at. IsLeastPlace (IsUnfounded streams.now) at.0 at.1)) }
    ensures none { IfOk result (λ found. IfNone found
        ((p : PidValue) (i : ℕ) → ¬ IsUnfounded streams.now p i)) }
{
    let _pids = streams.pids();
    let lows = lowest_counts(alloc, streams)?;
    match first_unfounded(streams, pairing, &lows) {
        None => Ok(None),
        Some(place) => Ok(Some(place)),
    }
}
