//! Finds the hops back from all events. One pass over all events finds the other ends of messages,
//! and where rows begin; the rest is read from the streams.

ghost use Rattle.std.specs.Prelude.{◌≡◌, ◌≤◌, Option, Some, IfOk, OnOk, length, take};
ghost use Rattle.std.specs.Prelude.{option_and_then, slice_get};
ghost use Rattle.std.specs.Option.{unwrap_or};
ghost use Rattle.st_core.specs.Streams.{IsStreams, events_of};
ghost use Rattle.st_core.specs.declared.types.Kind.TheVariants as kind;
ghost use Rattle.st_pair.specs.Places.{event_at};
ghost use Rattle.node_streams.specs.Messages.{all_partners, content_of, other_end_of, owner};
ghost use Rattle.node_hops.specs.Events.{row_first};
ghost use Rattle.node_hops.specs.Hops.{hop_of_stamp, node_hop_by, node_hop_by_label, node_hop_of};
ghost use Rattle.node_hops.specs.Hops.{node_hop_to_send};
ghost use Rattle.node_hops.specs.Hops.{label_there_or};
ghost use Rattle.node_hops.specs.Claims.{IsTrueOnNode};
ghost use Rattle.node_hops.specs.Kept.{all_row_firsts};
ghost use Rattle.node_hops.specs.Tree.{receive_place};

use crate::hop::NodeHop;
use crate::rows::{row_firsts, take_before};
use node_streams::MessageEnds;
use st_core::{Event, Kind, Label, Pid, Sequence, Streams};
use std::alloc::{AllocError, Global};
use std::marker::Model;

fn all_partners(
    alloc: Global,
    streams: &Streams,
    ends: &MessageEnds<'_>,
) -> Result<Vec<Sequence<Option<u64>>>, AllocError>
    requires { ends.now ≡ streams.now }
    ensures { IfOk result (λ v. v.items ≡ all_partners streams.now) }
{
    let mut lists = Vec::new(alloc);
    for &pid in streams.pids() {
        let list = ends.partners(alloc, streams.events(pid))?;
        lists.push(Sequence::from_vec(list))?;
    }
    Ok(lists)
}

fn all_row_firsts(alloc: Global, streams: &Streams) -> Result<Vec<Sequence<usize>>, AllocError>
    ensures kept { IfOk result (λ v. v.items ≡ all_row_firsts streams.now) }
    ensures streams { OnOk result (IsStreams streams.now) }
{
    let mut lists = Vec::new(alloc);
    for &pid in streams.pids() {
        let list = row_firsts(alloc, streams.events(pid))?;
        lists.push(Sequence::from_vec(list))?;
    }
    Ok(lists)
}

fn start_at(starts: &[usize], index: usize) -> usize
    ensures { result ≡ unwrap_or (slice_get starts.now index) 0 }
{
    match starts.get(index) {
        None => 0,
        Some(start) => *start,
    }
}

/// Returns where the row up to a process's event begins.
fn row_first(
    streams: &Streams,
    starts: &[Sequence<usize>],
    pid: Pid,
    index: u64,
    event: &Event,
) -> usize
    requires sound { IsStreams streams.now }
    requires rows { starts.now ≡ all_row_firsts streams.now }
    requires there { slice_get (events_of streams.now pid) index ≡ Some event.now }
    ensures value { result ≡ row_first event.now.serial.prev (events_of streams.now pid) index }
    ensures within { result ≤ length (events_of streams.now pid) }
{
    match streams.place_of(pid) {
        None => 0,
        Some(place) => start_at(starts[place].as_slice(), index as usize),
    }
}

/// Returns the partner at an index, none past the end.
pub(crate) fn partner_at(partners: &[Option<u64>], index: usize) -> Option<u64>
    ensures { result ≡ option_and_then (λ o. o) (slice_get partners.now index) }
{
    match partners.get(index) {
        None => None,
        Some(partner) => *partner,
    }
}

fn partner(
    streams: &Streams,
    partners: &[Sequence<Option<u64>>],
    pid: Pid,
    index: u64,
    event: &Event,
) -> Option<u64>
    requires sound { IsStreams streams.now }
    requires paired { partners.now ≡ all_partners streams.now }
    requires there { slice_get (events_of streams.now pid) index ≡ Some event.now }
    ensures { result
        ≡ other_end_of streams.now (take index (events_of streams.now pid)) event.now }
{
    match streams.place_of(pid) {
        None => None,
        Some(place) => partner_at(partners[place].as_slice(), index as usize),
    }
}

fn receiver_of(event: &Event) -> Pid
    ensures { result ≡ owner kind.Receive (content_of event.now) }
{
    match event.to {
        Some(to) => to,
        None => event.from,
    }
}

fn label_there_or(events: &[Event], index: u64, label: Label) -> Label
    ensures { result ≡ label_there_or events.now index label }
{
    match events.get(index as usize) {
        None => label,
        Some(event) => event.label,
    }
}

/// Returns the hop to the receive at an index, or over a change of label.
fn node_hop_by_label(index: u64, received: Label, label: Label) -> NodeHop
    ensures { result ≡ node_hop_by_label index received label }
{
    if received.0 == label.0 {
        NodeHop::After(index)
    } else {
        NodeHop::OtherLabel(index, received)
    }
}

/// Returns the hop of a send or print with a prev and a label, whose row begins at `start`.
pub(crate) fn node_hop_by(
    events: &[Event],
    prev: u64,
    label: Label,
    start: u64,
    receive: Option<u64>,
) -> NodeHop
    ensures { result ≡ node_hop_by events.now prev label start receive }
{
    match receive {
        Some(index) => node_hop_by_label(index, label_there_or(events, index, label), label),
        None => {
            if start == 0 && prev == 0 {
                NodeHop::Begins
            } else {
                NodeHop::Moved(start)
            }
        }
    }
}

pub(crate) fn node_hop_to_send(from: Pid, send: Option<u64>) -> NodeHop
    ensures { result ≡ node_hop_to_send from send }
{
    match send {
        Some(index) => NodeHop::Sent(from, index),
        None => NodeHop::Unsent,
    }
}

/// The hops back from all events of streams, which it borrows. A contract sees it as the streams.
/// It keeps 24 bytes an event.
#[derive(Drop)]
pub struct NodeHops<'a> {
    streams: &'a Streams,
    partners: Vec<Sequence<Option<u64>>>,
    starts: Vec<Sequence<usize>>,
}

impl<'a> Model for NodeHops<'a> {
    ghost use Rattle.std.specs.Prelude.{List};
    ghost use Rattle.st_core.specs.Run.{Stream};
    ghost use Rattle.node_hops.specs.Kept.{AreHopTables};

    ghost Value = { List Stream };

    ghost view = { λ a. a.streams.now };

    ghost invariant = { λ a. AreHopTables a.streams.now a.partners.items a.starts.items };
}

impl<'a> NodeHops<'a> {
    /// Collects the hops of streams. Fails only if memory runs out.
    pub fn new(alloc: Global, streams: &'a Streams) -> Result<Self, AllocError>
        ensures { IfOk result (λ hops. hops ≡ streams.now) }
    {
        let ends = MessageEnds::of(alloc, streams)?;
        let partners = all_partners(alloc, streams, &ends)?;
        let starts = all_row_firsts(alloc, streams)?;
        Ok(NodeHops {
            streams,
            partners,
            starts,
        })
    }

    /// Returns the event at a place, if there is one.
    pub fn event(&self, pid: Pid, index: u64) -> Option<Event>
        ensures { result ≡ event_at self.now pid index }
    {
        self.streams.event(pid, index)
    }

    pub(crate) fn events(&self, pid: Pid) -> &[Event]
        ensures { result.now ≡ events_of self.now pid }
    {
        self.streams.events(pid)
    }

    /// Returns the place of the receive of the message that the event at a place sends.
    pub(crate) fn receiver(&self, pid: Pid, index: u64, event: &Event) -> Option<(Pid, u64)>
        requires { slice_get (events_of self.now pid) index ≡ Some event.now }
        ensures { result ≡ receive_place self.now pid index event.now }
    {
        match self.partner(pid, index, event) {
            None => None,
            Some(other) => Some((receiver_of(event), other)),
        }
    }

    /// Returns the index of the other end of the message of the event at a place.
    fn partner(&self, pid: Pid, index: u64, event: &Event) -> Option<u64>
        requires { slice_get (events_of self.now pid) index ≡ Some event.now }
        ensures { result
            ≡ other_end_of self.now (take index (events_of self.now pid)) event.now }
    {
        partner(self.streams, self.partners.as_slice(), pid, index, event)
    }

    /// Returns the hop back from the event at a place. Takes no memory; its time doesn't depend on
    /// the trace, but for finding the process.
    pub fn hop(&self, pid: Pid, index: u64, event: &Event) -> NodeHop
        requires { slice_get (events_of self.now pid) index ≡ Some event.now }
        ensures value { result ≡ node_hop_of self.now pid index event.now }
        ensures truth { IsTrueOnNode self.now pid index event.now result }
    {
        self.find_hop(self.streams.events(pid), pid, index, event)
    }

    /// Returns the hop of a send or print among its process's events.
    fn stamp_hop(&self, events: &[Event], pid: Pid, index: u64, event: &Event) -> NodeHop
        requires own { events.now ≡ events_of self.now pid }
        requires there { slice_get (events_of self.now pid) index ≡ Some event.now }
        ensures { result ≡ hop_of_stamp (events_of self.now pid) index event.now }
    {
        let prev = event.serial.prev;
        let start = row_first(self.streams, self.starts.as_slice(), pid, index, event);
        let receive = take_before(prev, events, start);
        node_hop_by(events, prev, event.label, start as u64, receive)
    }

    fn find_hop(&self, events: &[Event], pid: Pid, index: u64, event: &Event) -> NodeHop
        requires own { events.now ≡ events_of self.now pid }
        requires there { slice_get (events_of self.now pid) index ≡ Some event.now }
        ensures { result ≡ node_hop_of self.now pid index event.now }
    {
        match event.kind {
            Kind::Receive => node_hop_to_send(event.from, self.partner(pid, index, event)),
            Kind::Send | Kind::Print => self.stamp_hop(events, pid, index, event),
        }
    }
}
