//! Finds the other ends of messages.

ghost use Rattle.std.specs.Prelude.{◌≡◌, true, List, IfOk, count_by};
ghost use Rattle.st_core.specs.Event.{kind_eq};
ghost use Rattle.st_core.specs.declared.types.Event.{Event as EventValue};
ghost use Rattle.st_core.specs.declared.types.Kind.TheVariants as kind;
ghost use Rattle.node_streams.specs.Messages.{content_of, other_end_of, owner, partners, tells};

use crate::alike::alike_before;
use crate::content::MessageContent;
use crate::ends::{End, all_ends, place};
use crate::numbers::number_at;
use st_core::{Event, Kind, Pid, Sequence, Streams};
use std::alloc::{AllocError, Global};
use std::marker::Model;

pub(crate) fn receiver_of(event: &Event) -> Pid
    ensures { result ≡ owner kind.Receive (content_of event.now) }
{
    match event.to {
        Some(to) => to,
        None => event.from,
    }
}

/// The sends and the receives that streams report, by the content of their messages. A contract
/// sees it as the streams, which it borrows.
#[derive(Drop)]
pub struct MessageEnds<'a> {
    streams: &'a Streams,
    sends: Vec<Sequence<End>>,
    receives: Vec<Sequence<End>>,
}

impl<'a> Model for MessageEnds<'a> {
    ghost use Rattle.std.specs.Prelude.{List};
    ghost use Rattle.st_core.specs.Run.{Stream};
    ghost use Rattle.node_streams.specs.Tables.{AreBothEnds};

    ghost Value = { List Stream };

    ghost view = { λ a. a.streams.now };

    ghost invariant = { λ a. AreBothEnds a.streams.now a.sends.items a.receives.items };
}

impl<'a> MessageEnds<'a> {
    /// Collects the ends of streams. Fails only if memory runs out.
    pub fn of(alloc: Global, streams: &'a Streams) -> Result<Self, AllocError>
        ensures { IfOk result (λ ends. ends ≡ streams.now) }
    {
        let sends = all_ends(alloc, streams, Kind::Send)?;
        let receives = all_ends(alloc, streams, Kind::Receive)?;
        Ok(MessageEnds {
            streams,
            sends,
            receives,
        })
    }

    /// Returns the index of the other end of an event's message: `sent` alike ones were sent
    /// before it if it is a send, and `received` were received if it is a receive.
    fn partner(&self, event: &Event, sent: u64, received: u64) -> Option<u64>
        ensures { (before : List EventValue)
            → (kind_eq event.now.kind kind.Send ≡ true
            → sent ≡ count_by (tells kind.Send (content_of event.now)) before)
            → (kind_eq event.now.kind kind.Receive ≡ true
            → received ≡ count_by (tells kind.Receive (content_of event.now)) before)
            → result ≡ other_end_of self.now before event.now }
    {
        let content = MessageContent::of(event);
        match event.kind {
            Kind::Print => None,
            Kind::Send => {
                let to = receiver_of(event);
                place(self.streams, self.receives.as_slice(), to, content, sent)
            }
            Kind::Receive => {
                place(
                    self.streams,
                    self.sends.as_slice(),
                    event.from,
                    content,
                    received,
                )
            }
        }
    }

    /// Returns for each event of a process the index of the other end of its message, in the
    /// stream of the process that reports it. Fails only if memory runs out.
    pub fn partners(&self, alloc: Global, events: &[Event]) -> Result<Vec<Option<u64>>, AllocError>
        ensures { IfOk result (λ v. v.items ≡ partners self.now events.now) }
    {
        let sent = alike_before(alloc, Kind::Send, events)?;
        let received = alike_before(alloc, Kind::Receive, events)?;
        let mut found = Vec::with_capacity(alloc, events.len())?;
        for (i, event) in events.iter().enumerate() {
            found.push(self.partner(event, number_at(&sent, i), number_at(&received, i)))?;
        }
        Ok(found)
    }
}
