//! Finds the sends that receives took.

ghost use Rattle.std.specs.Prelude.{◌≡◌, true, List, Some, IfOk, count_by, option_and_then};
ghost use Rattle.std.specs.Prelude.{slice_get};
ghost use Rattle.st_core.specs.Pid.{IsRising};
ghost use Rattle.st_core.specs.Run.{Stream as StreamValue, pids_of};
ghost use Rattle.st_core.specs.Streams.{events_of};
ghost use Rattle.st_core.specs.declared.types.Pid.{Pid as PidValue};
ghost use Rattle.st_core.specs.declared.types.Event.{Event as EventValue};
ghost use Rattle.st_core.specs.declared.types.Kind.TheVariants as kind;
ghost use Rattle.node_streams.specs.Messages.{all_taken_sends, content_of, taken_send, taken_sends};
ghost use Rattle.node_streams.specs.Messages.{takes_message, tells};

use crate::alike::alike_before;
use crate::content::MessageContent;
use crate::ends::{End, all_ends, place};
use crate::numbers::number_at;
use st_core::{Event, Kind, Sequence, Streams};
use std::alloc::{AllocError, Global};
use std::marker::Model;

/// The sends that streams report, by the content of their messages. A contract sees it as the
/// streams, which it borrows.
#[derive(Drop)]
pub struct Sends<'a> {
    streams: &'a Streams,
    ends: Vec<Sequence<End>>,
}

impl<'a> Model for Sends<'a> {
    ghost use Rattle.std.specs.Prelude.{List};
    ghost use Rattle.st_core.specs.Run.{Stream};
    ghost use Rattle.node_streams.specs.Tables.{AreSends};

    ghost Value = { List Stream };

    ghost view = { λ a. a.streams.now };

    ghost invariant = { λ a. AreSends a.streams.now a.ends.items };
}

impl<'a> Sends<'a> {
    /// Collects the sends of streams. Fails only if memory runs out.
    pub fn of(alloc: Global, streams: &'a Streams) -> Result<Self, AllocError>
        ensures { IfOk result (λ sends. sends ≡ streams.now) }
    {
        let ends = all_ends(alloc, streams, Kind::Send)?;
        Ok(Sends { streams, ends })
    }

    /// Returns the streams that it borrows.
    pub fn streams(&self) -> &Streams
        ensures { result.now ≡ self.now }
    {
        self.streams
    }

    /// Returns the index of the send that an event took, if it is a receive after `number` alike
    /// ones.
    fn taken(&self, event: &Event, number: u64) -> Option<u64>
        ensures { (before : List EventValue) → (takes_message event.now ≡ true
            → number ≡ count_by (tells kind.Receive (content_of event.now)) before)
            → result ≡ taken_send self.now before event.now }
    {
        match event.kind {
            Kind::Send | Kind::Print => None,
            Kind::Receive => {
                let content = MessageContent::of(event);
                place(
                    self.streams,
                    self.ends.as_slice(),
                    event.from,
                    content,
                    number,
                )
            }
        }
    }

    /// Returns for each event of a process the index of the send that it took, in its sender's
    /// stream. Fails only if memory runs out.
    pub fn taken_by(&self, alloc: Global, events: &[Event]) -> Result<Vec<Option<u64>>, AllocError>
        ensures { IfOk result (λ v. v.items ≡ taken_sends self.now events.now) }
    {
        let numbers = alike_before(alloc, Kind::Receive, events)?;
        let mut found = Vec::with_capacity(alloc, events.len())?;
        for (i, event) in events.iter().enumerate() {
            found.push(self.taken(event, number_at(&numbers, i)))?;
        }
        Ok(found)
    }
}

pub(crate) fn all_taken_sends(
    alloc: Global,
    streams: &Streams,
) -> Result<Vec<Sequence<Option<u64>>>, AllocError>
    ensures { IfOk result (λ v. v.items ≡ all_taken_sends streams.now) }
{
    let sends = Sends::of(alloc, streams)?;
    let mut lists = Vec::new(alloc);
    for &pid in streams.pids() {
        let list = sends.taken_by(alloc, streams.events(pid))?;
        lists.push(Sequence::from_vec(list))?;
    }
    Ok(lists)
}

/// Returns the sends that the events of the process at a place took.
pub(crate) fn taken_of(taken: &[Sequence<Option<u64>>], place: usize) -> &[Option<u64>]
    ensures { (streams : List StreamValue) (p : PidValue) → IsRising (pids_of streams)
        → taken.now ≡ all_taken_sends streams → slice_get (pids_of streams) place ≡ Some p
        → result.now ≡ taken_sends streams (events_of streams p) }
{
    match taken.get(place) {
        None => &[],
        Some(sends) => sends.as_slice(),
    }
}

/// Returns the send that the event at an index took, none past the end.
pub(crate) fn taken_at(taken: &[Option<u64>], index: usize) -> Option<u64>
    ensures { result ≡ option_and_then (λ o. o) (slice_get taken.now index) }
{
    match taken.get(index) {
        None => None,
        Some(send) => *send,
    }
}
