//! Links each receive of a candidate to its send. Nothing is searched: the index of each event is
//! known, and each message comes from the pairing, a hidden send, or what a stamp got. Nothing has
//! to hold of links, since the judge looks at both ends of a message before it believes them.

ghost use Rattle.std.specs.Prelude.{◌≡◌, length, map, vec_len, IfOk, IfSome};
ghost use Rattle.st_core.specs.Run.{pids_of};
ghost use Rattle.lack_search.specs.Links.{event_counts, lengths_of, IsMessageEndIn, KeepsShape};

use crate::asks::{Ask, GivenMessage};
use crate::assembly::Parts;
use crate::hidden_sends::HiddenSend;
use crate::inventions::Invention;
use crate::positions::Positions;
use st_core::{Event, Kind, Pid, Sequence, Streams};
use st_pair::Pairing;
use std::alloc::{AllocError, Global};

/// One end of a message, which is an event of the whole streams.
#[derive(Clone, Copy)]
struct MessageEnd {
    process: usize,
    index: u32,
}

/// The links that were found so far.
#[derive(Drop)]
struct Linker<'a> {
    streams: &'a Streams,
    whole: &'a Streams,
    positions: &'a Positions,
    /// The links of each process, by its place: for each event the index of the other end of its
    /// message.
    rows: Vec<Vec<u32>>,
}

impl Linker<'_> {
    /// Returns the end at an event of a process, by its index in the whole streams.
    fn end_at(&self, pid: Pid, index: u32) -> Option<MessageEnd>
        ensures { IfSome result (IsMessageEndIn self.now.whole.now pid) }
    {
        let process = self.whole.place_of(pid)?;
        Some(MessageEnd { process, index })
    }

    /// Returns the end at a reported event, by its index in the streams.
    fn end_at_reported(&self, pid: Pid, index: usize) -> Option<MessageEnd>
        ensures { IfSome result (IsMessageEndIn self.now.whole.now pid) }
    {
        let process = self.streams.place_of(pid)?;
        self.end_at(pid, self.positions.of_reported(process, index)?)
    }

    /// Notes at one end of a message the index of the other.
    fn note(&mut self, end: MessageEnd, other: MessageEnd)
        ensures { KeepsShape self.old self.new }
    {
        if end.process < self.rows.len() {
            let row = &mut self.rows[end.process];
            let index = end.index as usize;
            if index < row.len() {
                row[index] = other.index;
            }
        }
    }

    fn link(&mut self, send: Option<MessageEnd>, receive: Option<MessageEnd>)
        ensures { KeepsShape self.old self.new }
    {
        if let (Some(sent), Some(received)) = (send, receive) {
            self.note(sent, received);
            self.note(received, sent);
        }
    }

    fn link_reported(&mut self, pairing: &Pairing, pid: Pid, events: &[Event])
        ensures { KeepsShape self.old self.new }
    {
        for (index, event) in events.iter().enumerate() {
            if event.kind != Kind::Send {
                continue;
            }
            if let Some((to, place)) = pairing.receiver(pid, index as u64) {
                let received = self.end_at_reported(to, place as usize);
                self.link(self.end_at_reported(pid, index), received);
            }
        }
    }

    fn link_hidden(&mut self, hidden: &[HiddenSend])
        ensures { KeepsShape self.old self.new }
    {
        for (send, &index) in hidden.iter().zip(&self.positions.hidden) {
            if let Some(to) = send.event.to {
                let received = self.end_at_reported(to, send.receipt as usize);
                self.link(self.end_at(send.event.from, index), received);
            }
        }
    }

    /// Links the sends whose receives were lost.
    fn link_lost(&mut self, fed: &[Ask])
        ensures { KeepsShape self.old self.new }
    {
        for (ask, &index) in fed.iter().zip(&self.positions.fed) {
            if let GivenMessage::Lost(from, sent) = ask.message {
                let received = self.end_at(ask.process, index);
                self.link(self.end_at_reported(from, sent as usize), received);
            }
        }
    }

    fn link_invented(&mut self, inventions: &[Invention])
        ensures { KeepsShape self.old self.new }
    {
        for (invention, &index) in inventions.iter().zip(&self.positions.invented) {
            if let Some(&received) = self.positions.fed.get(invention.ask as usize) {
                let end = self.end_at(invention.to, received);
                self.link(self.end_at(invention.sender, index), end);
            }
        }
    }

    fn into_links(self, alloc: Global) -> Result<Vec<Sequence<u32>>, AllocError>
        ensures { IfOk result (λ links. map length links.items ≡ lengths_of self.entry) }
    {
        let Linker { rows, .. } = self;
        let mut links = Vec::with_capacity(alloc, rows.len())?;
        for row in rows {
            links.push(Sequence::from_vec(row))?;
        }
        Ok(links)
    }
}

fn no_links(alloc: Global, whole: &Streams) -> Result<Vec<Vec<u32>>, AllocError>
    ensures { IfOk result (λ rows.
        map (λ row. length row.items) rows.items ≡ event_counts whole.now) }
{
    let mut rows = Vec::with_capacity(alloc, whole.pids().len())?;
    for &pid in whole.pids() {
        rows.push(vec![in alloc; 0u32; whole.events(pid).len()]?)?;
    }
    Ok(rows)
}

/// Returns the links of the whole streams that were put together from the streams and the parts.
pub(crate) fn links_of(
    alloc: Global,
    streams: &Streams,
    pairing: &Pairing,
    parts: &Parts,
    positions: &Positions,
    whole: &Streams,
) -> Result<Vec<Sequence<u32>>, AllocError>
    ensures { IfOk result (λ links. map length links.items ≡ event_counts whole.now) }
{
    let mut linker = Linker {
        streams,
        whole,
        positions,
        rows: no_links(alloc, whole)?,
    };
    for &pid in streams.pids() {
        linker.link_reported(pairing, pid, streams.events(pid));
    }
    linker.link_hidden(&parts.hidden);
    linker.link_lost(&parts.fed);
    linker.link_invented(&parts.inventions);
    linker.into_links(alloc)
}
