//! Collected event streams: a draft that grows, and the streams that it closes to.
//!
//! Both keep the rules of `specs/Streams.antt` in their types, so a function that gets `Streams`
//! needn't check them again. Nothing here steps the machine.

ghost use Rattle.std.specs.Prelude.{◌≡◌, ◌<◌, ◌↔◌, [], ◌∷◌, ◌++◌, length, not, position, true};
ghost use Rattle.std.specs.Prelude.{false, Some, None, IsTrue, IfOk, IfSome, IfNone, IfErr, OnOk};
ghost use Rattle.std.specs.Prelude.{OnErr, slice_get, slice_set, slice_index_or};
ghost use Rattle.std.specs.List.{AllByRecursion};
ghost use Rattle.st_core.specs.Pid.{pid_eq, IsBelow, IsRising};
ghost use Rattle.st_core.specs.Run.{pids_of};
ghost use Rattle.st_core.specs.Streams.{lists, events_of, total_of, unlisted, is_own, added};
ghost use Rattle.st_core.specs.Streams.{ComesLast, IsOpenFault, is_among, names_among, IsAddFault};
ghost use Rattle.st_core.specs.Streams.{IsDraft, IsStreams};
ghost use Rattle.st_core.specs.Collected.{first_failing};

use crate::guesses::Guesses;
use crate::places::place_of;
use crate::sequence::Sequence;
use crate::types::{Event, Pid};
use std::alloc::{AllocError, Global};
use std::marker::Model;
use thiserror::Error;

/// The number of pids for which there are guesses: the most processes that `seqaudit` reads.
const EXPECTED_PIDS: usize = 1_024;

/// Why a process wasn't opened.
#[derive(Clone, Copy, Debug, PartialEq, Eq, Error)]
pub enum OpenFault {
    /// Memory ran out.
    #[error("no memory")]
    Memory,
    /// The pid isn't above all pids that were opened. Checked first.
    #[error("the pids don't rise")]
    NotRising,
}

/// Why an event wasn't added.
#[derive(Clone, Copy, Debug, PartialEq, Eq, Error)]
pub enum AddFault {
    /// Memory ran out. Checked last.
    #[error("no memory")]
    Memory,
    /// The process wasn't opened. Checked first.
    #[error("the process isn't there")]
    Unknown,
    /// The event is another process's, or its `to` doesn't fit its kind. Checked second.
    #[error("the event isn't the process's own")]
    Foreign,
}

/// The streams that are being collected: processes by strictly rising pid, each event its
/// process's own. A pid that an event names needn't be listed yet.
#[derive(Debug, Drop)]
pub struct Draft {
    pids: Vec<Pid>,
    events: Vec<Sequence<Event>>,
    total: u64,
    guesses: Guesses,
}

impl Model for Draft {
    ghost use Rattle.std.specs.Prelude.{List};
    ghost use Rattle.st_core.specs.Run.{Stream};
    ghost use Rattle.st_core.specs.Collected.{collected, IsCollected};

    ghost Value = { List Stream };

    ghost view = { λ a. collected a.pids.items a.events.items };

    ghost invariant = { λ a. IsCollected a.pids.items a.events.items a.total };
}

impl Draft {
    /// Returns a draft of no processes. Takes no memory.
    pub fn new(alloc: Global) -> Draft
        ensures { result ≡ [] }
    {
        Draft {
            pids: Vec::new(alloc),
            events: Vec::new(alloc),
            total: 0,
            guesses: Guesses::none(alloc),
        }
    }

    /// Lists the next process, with no events yet.
    pub fn open(&mut self, pid: Pid) -> Result<(), OpenFault>
        ensures ok { OnOk result (self.new ≡ self.old ++ record { pid = pid; events = [] } ∷ []) }
        ensures rising { OnOk result (ComesLast self.old pid) }
        ensures fault { IfErr result (IsOpenFault self.old pid) }
        ensures err { OnErr result (self.new ≡ self.old) }
    {
        if !comes_last(&self.pids, pid) {
            return Err(OpenFault::NotRising);
        }
        let Ok(()) = self.pids.reserve(1) else {
            return Err(OpenFault::Memory);
        };
        let alloc = *self.pids.allocator();
        let Ok(()) = self.events.push(Sequence::new(alloc)) else {
            return Err(OpenFault::Memory);
        };
        self.guesses.fill(EXPECTED_PIDS);
        self.guesses
            .expect(pid.node(), pid.number(), self.pids.len());
        self.pids.push(pid).unwrap();
        Ok(())
    }

    /// Makes room for `more` events of a process, so that adding them copies nothing. Does nothing
    /// if the process isn't listed, and fails only if memory runs out.
    pub fn reserve(&mut self, pid: Pid, more: usize) -> Result<(), AllocError>
        ensures { self.new ≡ self.old }
    {
        match place_of(&self.guesses, &self.pids, pid) {
            None => Ok(()),
            Some(place) => reserve_at(&mut self.events, place, more),
        }
    }

    /// Adds an event at the end of a process's stream.
    pub fn add(&mut self, pid: Pid, event: Event) -> Result<(), AddFault>
        ensures ok { OnOk result (self.new ≡ added self.old pid event) }
        ensures listed { OnOk result (lists self.old pid ≡ true) }
        ensures own { OnOk result (is_own pid event ≡ true) }
        ensures fault { IfErr result (IsAddFault self.old pid event) }
        ensures err { OnErr result (self.new ≡ self.old) }
    {
        let Some(place) = place_of(&self.guesses, &self.pids, pid) else {
            return Err(AddFault::Unknown);
        };
        if !event.is_own(pid) {
            return Err(AddFault::Foreign);
        }
        // Never overflows, since memory can't hold 2^64 events.
        let Some(total) = self.total.checked_add(1) else {
            return Err(AddFault::Memory);
        };
        let Ok(()) = push_at(&mut self.events, place, event) else {
            return Err(AddFault::Memory);
        };
        self.total = total;
        Ok(())
    }

    /// Returns the streams if each pid that an event names is listed. Else it fails and gives the
    /// draft back, with the least place, by pid and then index, of an event that names a pid that
    /// isn't listed.
    pub fn close(self) -> Result<Streams, Unlisted>
        ensures ok { IfOk result (λ streams. streams ≡ self) }
        ensures streams { OnOk result (IsStreams self) }
        ensures err { IfErr result (λ fault. fault.draft ≡ self) }
        ensures place { IfErr result (λ fault. unlisted self ≡ Some (fault.pid, fault.index)) }
    {
        match self.first_unlisted() {
            None => Ok(Streams { draft: self }),
            Some((pid, index)) => Err(Unlisted {
                draft: self,
                pid,
                index,
            }),
        }
    }

    fn first_unlisted(&self) -> Option<(Pid, u64)>
        ensures place { result ≡ unlisted self.now }
        ensures draft { IsDraft self.now }
    {
        first_failing(&self.guesses, &self.pids, &self.events)
    }

    /// Returns the pids so far, which rise strictly.
    pub fn pids(&self) -> &[Pid]
        ensures value { result.now ≡ pids_of self.now }
        ensures draft { IsDraft self.now }
    {
        self.pids.as_slice()
    }

    /// Returns the events of a process so far, in order; none if the process isn't listed.
    pub fn events(&self, pid: Pid) -> &[Event]
        ensures value { result.now ≡ events_of self.now pid }
        ensures draft { IsDraft self.now }
    {
        match place_of(&self.guesses, &self.pids, pid) {
            None => &[],
            Some(place) => self.events[place].as_slice(),
        }
    }

    fn place_of(&self, pid: Pid) -> Option<usize>
        ensures found { IfSome result (λ i. slice_get (pids_of self.now) i ≡ Some pid) }
        ensures missing { IfNone result
            (AllByRecursion (λ p. pid_eq p pid ≡ false) (pids_of self.now)) }
    {
        place_of(&self.guesses, &self.pids, pid)
    }

    fn total(&self) -> u64
        ensures { result ≡ total_of self.now }
    {
        self.total
    }
}

/// A draft that didn't close, with the place of the first event that names a pid that isn't
/// listed.
#[derive(Debug, Drop)]
pub struct Unlisted {
    /// The draft as it was.
    pub draft: Draft,
    /// The process in whose stream the event is.
    pub pid: Pid,
    /// The event's index in the stream, counted from 0.
    pub index: u64,
}

/// The events that processes reported: processes by strictly rising pid, each event its process's
/// own, and each pid that an event names listed.
#[derive(Debug, Drop)]
pub struct Streams {
    draft: Draft,
}

impl Model for Streams {
    ghost use Rattle.std.specs.Prelude.{◌≡◌, List, None};
    ghost use Rattle.st_core.specs.Run.{Stream};
    ghost use Rattle.st_core.specs.Streams.{unlisted};

    ghost Value = { List Stream };

    ghost view = { λ a. a.draft };

    ghost invariant = { λ a. unlisted a.draft ≡ None };
}

impl Streams {
    /// Returns the pids, which rise strictly.
    pub fn pids(&self) -> &[Pid]
        ensures value { result.now ≡ pids_of self.now }
        ensures streams { IsStreams self.now }
    {
        self.draft.pids()
    }

    /// Returns the process's index in `pids`; none if the process isn't listed. Takes constant
    /// time for most pids, and at worst that of a binary search.
    pub fn place_of(&self, pid: Pid) -> Option<usize>
        ensures found { IfSome result (λ i. slice_get (pids_of self.now) i ≡ Some pid) }
        ensures missing { IfNone result
            (AllByRecursion (λ p. pid_eq p pid ≡ false) (pids_of self.now)) }
    {
        self.draft.place_of(pid)
    }

    /// Returns the events of a process in order; none if the process isn't listed.
    pub fn events(&self, pid: Pid) -> &[Event]
        ensures value { result.now ≡ events_of self.now pid }
        ensures streams { IsStreams self.now }
    {
        self.draft.events(pid)
    }

    /// Returns the number of a process's events; 0 if the process isn't listed.
    pub fn len(&self, pid: Pid) -> u64
        ensures { result ≡ length (events_of self.now pid) }
    {
        self.events(pid).len() as u64
    }

    /// Returns a process's event at an index, counted from 0; none past the end or if the process
    /// isn't listed.
    pub fn event(&self, pid: Pid, index: u64) -> Option<Event>
        ensures { result ≡ slice_get (events_of self.now pid) index }
    {
        self.events(pid).get(index as usize).copied()
    }

    /// Returns the number of all events.
    pub fn total(&self) -> u64
        ensures { result ≡ total_of self.now }
    {
        self.draft.total()
    }
}

fn comes_last(pids: &[Pid], pid: Pid) -> bool
    requires { IsRising pids.now }
    ensures { IsTrue result ↔ AllByRecursion (λ p. IsBelow p pid) pids.now }
{
    match pids.last() {
        None => true,
        Some(last) => last.cmp(&pid).is_lt(),
    }
}

fn reserve_at(events: &mut [Sequence<Event>], place: usize, more: usize) -> Result<(), AllocError>
    requires { place < length events.old }
    ensures { events.new ≡ events.old }
{
    let list = &mut events[place];
    list.reserve(more)
}

fn push_at(events: &mut [Sequence<Event>], place: usize, event: Event) -> Result<(), AllocError>
    requires { place < length events.old }
    ensures ok { OnOk result
        (events.new ≡ slice_set events.old place
        (slice_index_or events.old place [] ++ event ∷ [])) }
    ensures err { OnErr result (events.new ≡ events.old) }
{
    let list = &mut events[place];
    list.push(event)?;
    Ok(())
}

fn is_among(guesses: &Guesses, pids: &[Pid], pid: Pid) -> bool
    requires { IsRising pids.now }
    ensures { result ≡ is_among pids.now pid }
{
    match place_of(guesses, pids, pid) {
        None => false,
        Some(_) => true,
    }
}

fn names_among(guesses: &Guesses, pids: &[Pid], event: &Event) -> bool
    requires { IsRising pids.now }
    ensures { result ≡ names_among pids.now event.now }
{
    if !is_among(guesses, pids, event.from) {
        return false;
    }
    match event.to {
        None => true,
        Some(to) => is_among(guesses, pids, to),
    }
}

fn unlisted_index(guesses: &Guesses, pids: &[Pid], events: &[Event]) -> Option<usize>
    requires { IsRising pids.now }
    ensures { result ≡ position (λ e. not (names_among pids.now e)) events.now }
{
    events.iter().position(
        |event: &Event| -> bool
            requires { IsRising pids.now }
            ensures { result ≡ not (names_among pids.entry.now event.now) }
        { !names_among(guesses, pids, event) },
    )
}

/// Returns the place of the first event that names a pid that isn't among `pids`.
fn first_failing(guesses: &Guesses, pids: &[Pid], lists: &[Sequence<Event>]) -> Option<(Pid, u64)>
    requires rising { IsRising pids.now }
    requires even { length lists.now ≡ length pids.now }
    ensures { result ≡ first_failing (names_among pids.now) pids.now lists.now }
{
    for (place, events) in lists.iter().enumerate() {
        if let Some(index) = unlisted_index(guesses, pids, events.as_slice()) {
            return Some((pids[place], index as u64));
        }
    }
    None
}
