//! The reported receives, by the sender and the count of their message.
//!
//! A receive of a reported send or print is noted at that event, which its link names. The
//! receives of hidden sends are in a map, by sender and count. Whoever writes the streams chooses
//! both, so the map's hashes begin with a digest of all its keys.

ghost use Rattle.std.specs.Prelude.{◌≡◌, ℕ, ◌<◌, Option, None, Some, IfOk, IfErr, IfNone, IfSome};
ghost use Rattle.std.specs.Prelude.{OnOk, length, map, slice_get, slice_index_or, slice_set};
ghost use Rattle.st_core.specs.declared.types.Pid.{Pid as PidValue};
ghost use Rattle.st_core.specs.Pid.{IsRising};
ghost use Rattle.st_core.specs.Run.{pids_of};
ghost use Rattle.st_pair.specs.declared.receives.Key.{Key as KeyValue};
ghost use Rattle.st_pair.specs.Pairing.{repeated};
ghost use Rattle.st_pair.specs.Places.{first, first_from, or_else};
ghost use Rattle.st_pair.specs.Rules.{IsFirstFault};
ghost use Rattle.st_pair.specs.Tables.{here, mark_at, mark_of, no_marks, place_for, receive_rule};
ghost use Rattle.st_pair.specs.Tables.{link_back, links_back, stamp_index};
ghost use Rattle.st_pair.specs.Tables.{HasReceives, HasReceivesWith, IsMark};

use crate::answer::PairFault;
use crate::links::Links;
use crate::pairing::Link;
use crate::rules::repetition_at;
use indexmap::IndexMap;
use sha2::Sha256;
use st_core::{Event, Kind, Pid, Streams};
use st_hash::DigestState;
use std::alloc::{AllocError, Global};
use std::marker::Model;

/// A sender and the count that it stamped.
#[derive(Clone, Copy, Debug, PartialEq, Eq, Hash)]
pub struct Key {
    /// The sender.
    pub from: Pid,
    /// The count.
    pub this: u64,
}

impl Key {
    /// Returns the sender and the count of the message that an event received.
    pub fn of(event: &Event) -> Key
        ensures { result ≡ record { from = event.now.from; this = event.now.serial.this } }
    {
        Key {
            from: event.from,
            this: event.serial.this,
        }
    }
}

/// For each event of a process the place of the first receive from it, if there is one.
#[derive(Debug, Drop)]
pub struct Marks {
    places: Vec<Option<(Pid, u64)>>,
}

impl Model for Marks {
    ghost use Rattle.std.specs.Prelude.{ℕ, List, Option};
    ghost use Rattle.st_core.specs.declared.types.Pid.{Pid};

    ghost Value = { List (Option (Pid × ℕ)) };

    ghost view = { λ a. a.places.items };
}

impl Marks {
    /// Makes marks for `events` that note no receive.
    fn none(alloc: Global, events: &[Event]) -> Result<Marks, AllocError>
        ensures len { IfOk result (λ marks. length marks ≡ length events.now) }
        ensures none { IfOk result (λ marks.
            (i : ℕ) → i < length marks → slice_index_or marks i None ≡ None) }
    {
        let places = vec![in alloc; None; events.len()]?;
        Ok(Marks { places })
    }

    /// Returns what is noted at the event at `index`; none if there is no event.
    fn at(&self, index: u64) -> Option<Option<(Pid, u64)>>
        ensures { result ≡ slice_get self.now index }
    {
        self.places.get(index as usize).copied()
    }

    /// Notes at the event at `index` the place of the first receive from it.
    fn put(&mut self, index: u64, place: (Pid, u64))
        requires { index < length self.old }
        ensures { self.new ≡ slice_set self.old index (Some place) }
    {
        self.places[index as usize] = Some(place);
    }
}

/// An event at which receives are noted, and what is noted there.
#[derive(Clone, Copy, Debug)]
pub struct Mark {
    /// The place of the event's process in the streams.
    pub process: usize,
    /// The index of the event.
    pub index: u64,
    /// The place of the first receive from the event, if one is noted.
    pub first: Option<(Pid, u64)>,
}

/// For each sender and count the place of the first receive that has them.
#[derive(Drop)]
pub struct Receives {
    /// The receives of reported sends and prints, by the place of the process that sent or
    /// printed.
    shown: Vec<Marks>,
    /// The receives of hidden sends.
    hidden: IndexMap<Key, (Pid, u64), DigestState>,
}

impl Receives {
    /// Makes tables without receives. `hidden_keys` is a digest of the keys of all receives of
    /// hidden sends.
    fn new(alloc: Global, streams: &Streams, hidden_keys: Sha256) -> Result<Receives, AllocError>
        ensures { IfOk result (λ receives.
            (k : KeyValue) → place_for streams.now receives k ≡ None) }
    {
        let shown = all_marks(alloc, streams)?;
        Ok(Receives {
            shown,
            hidden: IndexMap::with_hasher(alloc, DigestState::new(hidden_keys)),
        })
    }

    /// Collects the receives of streams, whose events have the links `links`. Fails at the first
    /// receive whose message was received before, or if memory runs out.
    pub fn of(
        alloc: Global,
        streams: &Streams,
        links: &[Links],
        hidden_keys: Sha256,
    ) -> Result<Receives, PairFault>
        requires { links.now ≡ map (links_back streams.now) streams.now }
        ensures table { IfOk result (λ receives.
            HasReceives streams.now (place_for streams.now receives)) }
        ensures once { OnOk result (first (repeated streams.now) streams.now ≡ None) }
        ensures fault { IfErr result (IsFirstFault (first (repeated streams.now) streams.now)) }
    {
        let Ok(mut receives) = Receives::new(alloc, streams, hidden_keys) else {
            return Err(PairFault::Memory);
        };
        let pids = streams.pids();
        for (place, pid) in pids.iter().enumerate() {
            let own = links[place].as_slice();
            note_receives(&mut receives, streams, *pid, streams.events(*pid), own)?;
        }
        Ok(receives)
    }

    /// Returns the place of the first receive with this key, whose send or print is at `index` of
    /// the process at place `process`.
    pub fn first_of(
        &self,
        streams: &Streams,
        key: Key,
        process: usize,
        index: u64,
    ) -> Option<(Pid, u64)>
        requires rising { IsRising (pids_of streams.now) }
        requires process { slice_get (pids_of streams.now) process ≡ Some key.from }
        requires index { stamp_index streams.now key ≡ Some index }
        ensures { result ≡ place_for streams.now self.now key }
    {
        match mark_at(&self.shown, process, index) {
            None => self.hidden.get(&key).copied(),
            Some(first) => first,
        }
    }

    /// Returns where the receives with this key are noted, if its send or print was reported,
    /// which then has the index `sent`.
    fn mark(&self, streams: &Streams, key: Key, sent: Option<u64>) -> Option<Mark>
        requires rising { IsRising (pids_of streams.now) }
        requires sent { stamp_index streams.now key ≡ sent }
        ensures mark { IfSome result (IsMark streams.now self.now.shown.items key) }
        ensures none { IfNone result (mark_of streams.now self.now.shown.items key ≡ None) }
    {
        let Some(index) = sent else {
            return None;
        };
        let Some(process) = streams.place_of(key.from) else {
            return None;
        };
        let Some(first) = mark_at(&self.shown, process, index) else {
            return None;
        };
        Some(Mark {
            process,
            index,
            first,
        })
    }

    /// Notes the receive at `place`, and returns the place of the first receive with its key,
    /// which is `place` if none came before. If its send or print was reported, `sent` is its
    /// index.
    fn note(
        &mut self,
        streams: &Streams,
        key: Key,
        sent: Option<u64>,
        place: (Pid, u64),
    ) -> Result<(Pid, u64), AllocError>
        requires rising { IsRising (pids_of streams.now) }
        requires sent { stamp_index streams.now key ≡ sent }
        ensures first { IfOk result (λ first.
            Some first ≡ or_else (place_for streams.now self.old key) (Some place)) }
        ensures noted { IfOk result (λ first. first ≡ place → (k : KeyValue) →
            place_for streams.now self.new k
            ≡ or_else (place_for streams.now self.old k) (here key place k)) }
    {
        match self.mark(streams, key, sent) {
            None => self.note_hidden(streams, key, place),
            Some(mark) => Ok(self.note_shown(streams, key, mark, place)),
        }
    }

    /// Notes a receive whose send is hidden.
    fn note_hidden(
        &mut self,
        streams: &Streams,
        key: Key,
        place: (Pid, u64),
    ) -> Result<(Pid, u64), AllocError>
        requires { mark_of streams.now self.old.shown.items key ≡ None }
        ensures first { IfOk result (λ first.
            Some first ≡ or_else (place_for streams.now self.old key) (Some place)) }
        ensures noted { IfOk result (λ first. first ≡ place → (k : KeyValue) →
            place_for streams.now self.new k
            ≡ or_else (place_for streams.now self.old k) (here key place k)) }
    {
        match self.hidden.insert(key, place) {
            Err(_) => Err(AllocError),
            Ok(None) => Ok(place),
            Ok(Some(earlier)) => Ok(earlier),
        }
    }

    /// Notes a receive whose send or print was reported.
    fn note_shown(
        &mut self,
        streams: &Streams,
        key: Key,
        mark: Mark,
        place: (Pid, u64),
    ) -> (Pid, u64)
        requires { IsMark streams.now self.old.shown.items key mark }
        ensures first { Some result ≡ or_else (place_for streams.now self.old key) (Some place) }
        ensures noted { result ≡ place → (k : KeyValue) →
            place_for streams.now self.new k
            ≡ or_else (place_for streams.now self.old k) (here key place k) }
    {
        match mark.first {
            Some(earlier) => earlier,
            None => {
                self.shown[mark.process].put(mark.index, place);
                place
            }
        }
    }
}

/// Returns what is noted at event `index` of the process at place `process`; none if there is no
/// event.
fn mark_at(shown: &[Marks], process: usize, index: u64) -> Option<Option<(Pid, u64)>>
    ensures { result ≡ mark_at shown.now process index }
{
    match shown.get(process) {
        None => None,
        Some(marks) => marks.at(index),
    }
}

/// Makes marks for the events of all processes that note no receive.
fn all_marks(alloc: Global, streams: &Streams) -> Result<Vec<Marks>, AllocError>
    ensures { IfOk result (λ shown. shown.items ≡ map no_marks streams.now) }
{
    let mut shown = Vec::with_capacity(alloc, streams.pids().len())?;
    for &pid in streams.pids() {
        shown.push(Marks::none(alloc, streams.events(pid))?)?;
    }
    Ok(shown)
}

/// Notes the receives of one process, whose links are `links`. Fails at the first receive whose
/// message was received before, or if memory runs out.
fn note_receives(
    receives: &mut Receives,
    streams: &Streams,
    pid: Pid,
    events: &[Event],
    links: &[Link],
) -> Result<(), PairFault>
    requires rising { IsRising (pids_of streams.now) }
    requires links { links.now ≡ map (link_back streams.now) events.now }
    ensures noted { OnOk result ((k : KeyValue) →
        place_for streams.now receives.new k
        ≡ or_else (place_for streams.now receives.old k)
        (first_from (receive_rule k) pid 0 events.now)) }
    ensures once { (rest : KeyValue → Option (PidValue × ℕ)) →
        HasReceivesWith streams.now (place_for streams.now receives.old)
        (λ k. or_else (first_from (receive_rule k) pid 0 events.now) (rest k)) →
        OnOk result (first_from (repeated streams.now) pid 0 events.now ≡ None) }
    ensures fault { (rest : KeyValue → Option (PidValue × ℕ)) →
        HasReceivesWith streams.now (place_for streams.now receives.old)
        (λ k. or_else (first_from (receive_rule k) pid 0 events.now) (rest k)) →
        IfErr result (IsFirstFault (first_from (repeated streams.now) pid 0 events.now)) }
{
    for (i, event) in events.iter().enumerate() {
        match event.kind {
            Kind::Send | Kind::Print => {}
            Kind::Receive => {
                let key = Key::of(event);
                let Ok(first) = receives.note(streams, key, links[i].sent(), (pid, i as u64)) else {
                    return Err(PairFault::Memory);
                };
                if let Some(fault) = repetition_at(first, pid, i as u64) {
                    return Err(fault);
                }
            }
        }
    }
    Ok(())
}
