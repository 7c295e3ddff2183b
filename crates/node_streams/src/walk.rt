//! The walk over all events, in which each receive comes after its send.

ghost use Rattle.std.specs.Prelude.{◌≡◌, ◌<◌, ◌≤◌, [], ◌∷◌, ℕ, List, Some, IfOk, OnOk, IfNone};
ghost use Rattle.std.specs.Prelude.{IfSome, IsFalse, IsTrue, slice_get};
ghost use Rattle.std.specs.Option.{unwrap_or};
ghost use Rattle.st_core.specs.Run.{pids_of};
ghost use Rattle.st_core.specs.Streams.{IsStreams};
ghost use Rattle.st_core.specs.declared.types.Pid.{Pid as PidValue};
ghost use Rattle.node_streams.specs.Messages.{all_taken_sends};
ghost use Rattle.node_streams.specs.Order.{CanGo};
ghost use Rattle.node_streams.specs.Tables.{AreOf, GoesNext, IsAt, IsReached, done_in};

use crate::numbers::{number_at, put};
use crate::partners::receiver_of;
use crate::sends::{taken_at, taken_of};
use st_core::{Event, Kind, Pid, Sequence, Streams};
use std::alloc::{AllocError, Global};

/// The state of the walk. A place is that of a process among the pids.
#[derive(Drop)]
pub(crate) struct Walk {
    /// The number of events that each process has passed, by place.
    pub(crate) done: Vec<u64>,
    /// The places of processes that may go on. Only time depends on them.
    candidates: Vec<usize>,
}

impl Walk {
    pub(crate) fn new(alloc: Global, streams: &Streams) -> Result<Walk, AllocError>
        ensures start { IfOk result (IsAt streams.now []) }
        ensures sound { OnOk result (IsStreams streams.now) }
    {
        let count = streams.pids().len();
        let done = vec![in alloc; 0u64; count]?;
        let mut candidates = Vec::with_capacity(alloc, count)?;
        for place in 0..count {
            candidates.push(place)?;
        }
        Ok(Walk { done, candidates })
    }

    pub(crate) fn done_at(&self, place: usize) -> u64
        ensures { result ≡ unwrap_or (slice_get self.now.done.items place) 0 }
    {
        number_at(&self.done, place)
    }

    fn done_of(&self, streams: &Streams, pid: Pid) -> u64
        requires { IsStreams streams.now }
        ensures { result ≡ done_in streams.now self.now pid }
    {
        match streams.place_of(pid) {
            None => 0,
            Some(place) => self.done_at(place),
        }
    }

    /// Returns whether a send of a process has come, or wasn't reported.
    fn is_sent(&self, streams: &Streams, from: Pid, send: Option<u64>) -> bool
        requires { IsStreams streams.now }
        ensures yes { IsTrue result → (j : ℕ) → send ≡ Some j
            → j < done_in streams.now self.now from }
        ensures no { IsFalse result → (j : ℕ) × (send ≡ Some j)
            × (done_in streams.now self.now from ≤ j) }
    {
        match send {
            None => true,
            Some(index) => index < self.done_of(streams, from),
        }
    }

    /// Returns the next event of the process at a place, which has the events and took the sends,
    /// if it can go on.
    fn free_event_of(
        &self,
        streams: &Streams,
        place: usize,
        events: &[Event],
        taken: &[Option<u64>],
    ) -> Option<Event>
        requires { IsStreams streams.now }
        ensures free { (order : List PidValue) (p : PidValue) → IsAt streams.now order self.now
            → AreOf streams.now place p events.now taken.now
            → IfSome result (GoesNext streams.now order place) }
        ensures none { (order : List PidValue) (p : PidValue) → IsAt streams.now order self.now
            → AreOf streams.now place p events.now taken.now
            → IfNone result (¬ (CanGo streams.now order p)) }
    {
        let index = self.done_at(place);
        let Some(event) = events.get(index as usize) else {
            return None;
        };
        match event.kind {
            Kind::Send | Kind::Print => Some(*event),
            Kind::Receive => {
                let send = taken_at(taken, index as usize);
                if self.is_sent(streams, event.from, send) {
                    Some(*event)
                } else {
                    None
                }
            }
        }
    }

    fn free_event(
        &self,
        streams: &Streams,
        taken: &[Sequence<Option<u64>>],
        place: usize,
    ) -> Option<Event>
        requires sound { IsStreams streams.now }
        requires taken { taken.now ≡ all_taken_sends streams.now }
        ensures free { (order : List PidValue) → IsAt streams.now order self.now
            → IfSome result (GoesNext streams.now order place) }
        ensures none { (order : List PidValue) → IsAt streams.now order self.now
            → IfNone result ((p : PidValue) → slice_get (pids_of streams.now) place ≡ Some p
            → ¬ (CanGo streams.now order p)) }
    {
        let Some(&pid) = streams.pids().get(place) else {
            return None;
        };
        self.free_event_of(streams, place, streams.events(pid), taken_of(taken, place))
    }

    /// Removes candidates from the end, and returns the first that can go on, with its next event.
    fn candidate(
        &mut self,
        streams: &Streams,
        taken: &[Sequence<Option<u64>>],
    ) -> Option<(usize, Event)>
        requires sound { IsStreams streams.now }
        requires taken { taken.now ≡ all_taken_sends streams.now }
        ensures done { self.new.done ≡ self.old.done }
        ensures free { (order : List PidValue) → IsAt streams.now order self.old
            → IfSome result (λ x. GoesNext streams.now order x.0 x.1) }
    {
        while let Some(place) = self.candidates.pop() {
            if let Some(event) = self.free_event(streams, taken, place) {
                return Some((place, event));
            }
        }
        None
    }

    fn free_process(
        &self,
        streams: &Streams,
        taken: &[Sequence<Option<u64>>],
    ) -> Option<(usize, Event)>
        requires sound { IsStreams streams.now }
        requires taken { taken.now ≡ all_taken_sends streams.now }
        ensures free { (order : List PidValue) → IsAt streams.now order self.now
            → IfSome result (λ x. GoesNext streams.now order x.0 x.1) }
        ensures none { (order : List PidValue) → IsAt streams.now order self.now
            → IfNone result ((p : PidValue) → ¬ (CanGo streams.now order p)) }
    {
        for place in 0..streams.pids().len() {
            if let Some(event) = self.free_event(streams, taken, place) {
                return Some((place, event));
            }
        }
        None
    }

    /// Returns a process that can go on, with its next event.
    pub(crate) fn next(
        &mut self,
        streams: &Streams,
        taken: &[Sequence<Option<u64>>],
    ) -> Option<(usize, Event)>
        requires sound { IsStreams streams.now }
        requires taken { taken.now ≡ all_taken_sends streams.now }
        ensures done { self.new.done ≡ self.old.done }
        ensures free { (order : List PidValue) → IsAt streams.now order self.old
            → IfSome result (λ x. GoesNext streams.now order x.0 x.1) }
        ensures none { (order : List PidValue) → IsAt streams.now order self.old
            → IfNone result ((p : PidValue) → ¬ (CanGo streams.now order p)) }
    {
        match self.candidate(streams, taken) {
            Some(found) => Some(found),
            None => self.free_process(streams, taken),
        }
    }

    /// Goes on with the next event of the process at a place.
    pub(crate) fn go(
        &mut self,
        streams: &Streams,
        place: usize,
        event: &Event,
    ) -> Result<(), AllocError>
        requires { IsStreams streams.now }
        ensures { (order : List PidValue) (p : PidValue) → IsAt streams.now order self.old
            → slice_get (pids_of streams.now) place ≡ Some p
            → OnOk result (IsAt streams.now (p ∷ order) self.new) }
    {
        // There is one more, since memory holds the events.
        let Some(more) = self.done_at(place).checked_add(1) else {
            return Err(AllocError);
        };
        put(&mut self.done, place, more);
        match event.kind {
            Kind::Send => self.wake(streams, receiver_of(event)),
            Kind::Print | Kind::Receive => Ok(()),
        }
    }

    /// Makes a process a candidate: it may have waited for a message that was sent.
    fn wake(&mut self, streams: &Streams, pid: Pid) -> Result<(), AllocError>
        ensures { self.new.done ≡ self.old.done }
    {
        if let Some(place) = streams.place_of(pid) {
            self.candidates.push(place)?;
        }
        Ok(())
    }

    /// Goes on with the events of the process at a place, up to one that waits.
    pub(crate) fn go_far(
        &mut self,
        streams: &Streams,
        taken: &[Sequence<Option<u64>>],
        place: usize,
    ) -> Result<(), AllocError>
        requires sound { IsStreams streams.now }
        requires taken { taken.now ≡ all_taken_sends streams.now }
        requires way { IsReached streams.now self.old }
        ensures way { OnOk result (IsReached streams.now self.new) }
        ensures more { OnOk result ((p : PidValue)
            → done_in streams.now self.old p ≤ done_in streams.now self.new p) }
    {
        let Some(&pid) = streams.pids().get(place) else {
            return Ok(());
        };
        let events = streams.events(pid);
        let own = taken_of(taken, place);
        while let Some(event) = self.free_event_of(streams, place, events, own) {
            self.go(streams, place, &event)?;
        }
        Ok(())
    }
}
