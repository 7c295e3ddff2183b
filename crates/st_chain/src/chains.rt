//! The chains and the causes of all events, and the way back from an event over its causes.
//!
//! One pass over the events of a process finds the last receive whose count is the prev of each
//! send and print; all else is read from the streams and their pairing.

ghost use Rattle.std.specs.Prelude.{◌≡◌, true, map, None, Some, IfOk};
ghost use Rattle.std.specs.Prelude.{slice_get, option_and_then};
ghost use Rattle.st_core.specs.declared.types.Event.{Event as EventValue};
ghost use Rattle.st_core.specs.Streams.{events_of, IsStreams};
ghost use Rattle.st_pair.specs.Links.{IsPairing};
ghost use Rattle.st_pair.specs.Pairing.{refusal};
ghost use Rattle.st_pair.specs.Places.{is_stamp};
ghost use Rattle.st_chain.specs.Causes.{backs_from, cause_at, place_of_cause};
ghost use Rattle.st_chain.specs.Causes.{place_at, received_before};
ghost use Rattle.st_chain.specs.Causes.{IsBackFrom};
ghost use Rattle.st_chain.specs.Labels.{chain};

use crate::cause::Cause;
use crate::chain::Chain;
use crate::receives::all_backs;
use st_core::{Kind, Label, Pid, Sequence, Streams};
use st_pair::{Pairing, Source};
use std::alloc::{AllocError, Global};
use std::marker::Model;

fn back_at(list: &[Option<u64>], index: u64) -> Option<u64>
    ensures { result ≡ option_and_then (λ x. x) (slice_get list.now index) }
{
    match list.get(index as usize) {
        None => None,
        Some(found) => *found,
    }
}

/// Finds the last receive before the send or print at this place that has its prev as count.
fn receive_before(
    streams: &Streams,
    backs: &[Sequence<Option<u64>>],
    pid: Pid,
    index: u64,
) -> Option<u64>
    requires sound { IsStreams streams.now }
    requires backs { backs.now ≡ map (λ s. backs_from s.events 0 s.events) streams.now }
    ensures { (e : EventValue) → slice_get (events_of streams.now pid) index ≡ Some e
        → is_stamp e ≡ true
        → result ≡ received_before (events_of streams.now pid) e.serial.prev index }
{
    match streams.place_of(pid) {
        None => None,
        Some(place) => back_at(backs[place].as_slice(), index),
    }
}

/// The chains of streams and the causes of their events. A contract sees the streams alone.
/// `Chains` borrows the streams and their pairing, and takes 16 bytes for each event.
#[derive(Drop)]
pub struct Chains<'a> {
    alloc: Global,
    streams: &'a Streams,
    pairing: &'a Pairing,
    backs: Vec<Sequence<Option<u64>>>,
}

impl<'a> Model for Chains<'a> {
    ghost use Rattle.std.specs.Prelude.{List};
    ghost use Rattle.st_core.specs.Run.{Stream};
    ghost use Rattle.st_chain.specs.Kept.{AreCausesKept};

    ghost Value = { List Stream };

    ghost view = { λ a. a.streams.now };

    ghost invariant = { λ a. AreCausesKept a.streams.now a.pairing.now a.backs.items };
}

impl<'a> Chains<'a> {
    /// Makes the chains of streams, by the pairing of the streams. Fails only if memory runs out.
    pub fn new(
        alloc: Global,
        streams: &'a Streams,
        pairing: &'a Pairing,
    ) -> Result<Self, AllocError>
        requires { IsPairing streams.now pairing.now }
        ensures { IfOk result (λ chains. chains ≡ streams.now) }
    {
        let backs = all_backs(alloc, streams)?;
        Ok(Chains {
            alloc,
            streams,
            pairing,
            backs,
        })
    }

    /// Returns the indexes of a process's events with this label, rising; none if the process
    /// isn't listed. Takes no memory: each step goes over the process's events to the next one
    /// with the label.
    pub fn of(&self, pid: Pid, label: Label) -> Chain<'a>
        ensures { result ≡ chain self.now pid label }
    {
        Chain::new(self.streams.events(pid), label)
    }

    /// Returns the cause of the event at this place; none if there is no event. Takes no memory.
    pub fn cause(&self, pid: Pid, index: u64) -> Option<Cause>
        ensures { result ≡ cause_at self.now pid index }
    {
        let event = self.streams.events(pid).get(index as usize)?;
        match event.kind {
            Kind::Receive => match self.pairing.source(pid, index) {
                Some(Source::Event(from, place)) => Some(Cause::Event(from, place)),
                Some(Source::Hidden) | None => Some(Cause::Hidden),
            },
            Kind::Send | Kind::Print => {
                match receive_before(self.streams, self.backs.as_slice(), pid, index) {
                    None => Some(Cause::Start),
                    Some(place) => Some(Cause::Event(pid, place)),
                }
            }
        }
    }

    /// Returns the place of the event, that of its cause, and so on, up to an event whose cause is
    /// a hidden send or a start; an empty list if there is no event. The way back ends, since a
    /// cause has a smaller count than its event, or is the send of a receive. Fails only if memory
    /// runs out.
    pub fn back(&self, pid: Pid, index: u64) -> Result<Vec<(Pid, u64)>, AllocError>
        ensures { IfOk result (λ v. IsBackFrom self.now (place_at self.now pid index) v.items) }
    {
        let mut list = Vec::new(self.alloc);
        let mut at = self.place(pid, index);
        while let Some((p, i)) = at {
            list.push((p, i))?;
            at = self.before(p, i);
        }
        Ok(list)
    }

    /// Returns the place, if an event is there.
    fn place(&self, pid: Pid, index: u64) -> Option<(Pid, u64)>
        ensures { result ≡ place_at self.now pid index }
    {
        match self.cause(pid, index) {
            None => None,
            Some(_) => Some((pid, index)),
        }
    }

    /// Returns the place of the cause of the event at this place, if the cause is an event.
    fn before(&self, pid: Pid, index: u64) -> Option<(Pid, u64)>
        ensures before { result ≡ place_of_cause (cause_at self.now pid index) }
        ensures accepted { refusal self.now ≡ None }
    {
        // Reading a field shows the type's invariant: pairing accepted the streams, so that the
        // way back ends.
        let _ = &self.backs;
        match self.cause(pid, index) {
            Some(Cause::Event(from, place)) => Some((from, place)),
            Some(Cause::Hidden | Cause::Start) | None => None,
        }
    }
}
