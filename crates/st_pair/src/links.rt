//! The links of events before the receive of each send is known.
//!
//! The send of each receive is searched for here, once, among the sends of its sender. The link of
//! a send is filled in later, from the first receive that took it.

ghost use Rattle.std.specs.Prelude.{◌≡◌, ◌<◌, map, length, slice_set, IfOk};
ghost use Rattle.st_pair.specs.Tables.{link_back, links_back, AreStamps};

use crate::pairing::Link;
use crate::stamp_table::Stamps;
use sha2::{Digest, Sha256};
use st_core::{Event, Kind, Streams};
use std::alloc::{AllocError, Global};
use std::marker::Model;

/// The links of one process's events.
#[derive(Debug, Drop)]
pub struct Links {
    links: Vec<Link>,
}

impl Model for Links {
    ghost use Rattle.std.specs.Prelude.{List};
    ghost use Rattle.st_pair.specs.declared.pairing.Link.{Link};

    ghost Value = { List Link };

    ghost view = { λ a. a.links.items };
}

impl Links {
    /// Returns the links, in the order of the events.
    pub fn as_slice(&self) -> &[Link]
        ensures { result.now ≡ self.now }
    {
        self.links.as_slice()
    }

    /// Replaces the link at `index`.
    pub fn put(&mut self, index: usize, link: Link)
        requires { index < length self.old }
        ensures { self.new ≡ slice_set self.old index link }
    {
        self.links[index] = link;
    }

    /// Makes the links of `events`, and adds the key of each receive of a hidden send to
    /// `hidden_keys`.
    fn of_events(
        alloc: Global,
        streams: &Streams,
        sent: &mut Stamps,
        hidden_keys: &mut Sha256,
        events: &[Event],
    ) -> Result<Links, AllocError>
        requires { AreStamps streams.now sent.old }
        ensures links { IfOk result (λ links. links ≡ map (link_back streams.now) events.now) }
        ensures sent { sent.new ≡ sent.old }
    {
        let mut links = Vec::with_capacity(alloc, events.len())?;
        for event in events {
            links.push(link_back(streams, sent, hidden_keys, event))?;
        }
        Ok(Links { links })
    }
}

/// Returns the link of an event, and adds its key to `hidden_keys` if it is a receive of a hidden
/// send. A send is unpaired at first.
fn link_back(streams: &Streams, sent: &mut Stamps, hidden_keys: &mut Sha256, event: &Event) -> Link
    requires { AreStamps streams.now sent.old }
    ensures link { result ≡ link_back streams.now event.now }
    ensures sent { sent.new ≡ sent.old }
{
    match event.kind {
        Kind::Print => Link::Printed,
        Kind::Send => Link::Unpaired,
        Kind::Receive => match sent.find(streams, event.from, event.serial.this) {
            Some(index) => Link::From(event.from, index),
            None => {
                hidden_keys.update(&event.from.node().to_le_bytes());
                hidden_keys.update(&event.from.number().to_le_bytes());
                hidden_keys.update(&event.serial.this.to_le_bytes());
                Link::Hidden
            }
        },
    }
}

/// The links of all processes, in which each send is still unpaired.
#[derive(Drop)]
pub struct Sources {
    /// The links of each process, in the order of the streams.
    pub links: Vec<Links>,
    /// A digest of the keys of the receives of hidden sends.
    pub hidden_keys: Sha256,
}

impl Sources {
    /// Makes the links of the streams. Fails only if memory runs out.
    pub fn of(alloc: Global, streams: &Streams, sent: &mut Stamps) -> Result<Sources, AllocError>
        requires { AreStamps streams.now sent.old }
        ensures links { IfOk result (λ sources.
            sources.links.items ≡ map (links_back streams.now) streams.now) }
        ensures sent { sent.new ≡ sent.old }
    {
        let mut links = Vec::with_capacity(alloc, streams.pids().len())?;
        let mut hidden_keys = Sha256::new();
        for &pid in streams.pids() {
            let events = streams.events(pid);
            links.push(Links::of_events(alloc, streams, sent, &mut hidden_keys, events)?)?;
        }
        Ok(Sources { links, hidden_keys })
    }
}
