//! Finds the hops back from all events of one process, which take memory for these events alone.

ghost use Rattle.std.specs.Prelude.{◌≡◌, ◌≤◌, ℕ, Some, IfOk, length, slice_get, take};
ghost use Rattle.st_core.specs.Streams.{events_of};
ghost use Rattle.st_core.specs.declared.types.Event.{Event as EventValue};
ghost use Rattle.node_streams.specs.Messages.{taken_send};
ghost use Rattle.node_hops.specs.Claims.{IsTrueOnNode};
ghost use Rattle.node_hops.specs.Events.{row_first};
ghost use Rattle.node_hops.specs.Hops.{node_hop_of, node_hops_of};
ghost use Rattle.node_hops.specs.declared.hop.NodeHop.{NodeHop as NodeHopValue};

use crate::hop::NodeHop;
use crate::hops::{node_hop_by, node_hop_to_send, partner_at};
use crate::rows::{next_start, take_before};
use node_streams::Sends;
use st_core::{Event, Kind, Pid};
use std::alloc::{AllocError, Global};

/// Returns the hop back from an event of a process, which took `send`, and whose row begins at
/// `start`.
fn hop_from(
    sends: &Sends<'_>,
    events: &[Event],
    pid: Pid,
    index: usize,
    event: &Event,
    start: usize,
    send: Option<u64>,
) -> NodeHop
    requires own { events.now ≡ events_of sends.now pid }
    requires there { slice_get (events_of sends.now pid) index ≡ Some event.now }
    requires taken { send ≡ taken_send sends.now (take index (events_of sends.now pid)) event.now }
    requires row { start ≡ row_first event.now.serial.prev (events_of sends.now pid) index }
    requires within { start ≤ length (events_of sends.now pid) }
    ensures { result ≡ node_hop_of sends.now pid index event.now }
{
    match event.kind {
        Kind::Receive => node_hop_to_send(event.from, send),
        Kind::Send | Kind::Print => {
            let prev = event.serial.prev;
            let receive = take_before(prev, events, start);
            node_hop_by(events, prev, event.label, start as u64, receive)
        }
    }
}

/// Returns the hops back from all events of a process, in order. Fails only if memory runs out.
pub fn process_hops(alloc: Global, sends: &Sends<'_>, pid: Pid) -> Result<Vec<NodeHop>, AllocError>
    ensures value { IfOk result (λ v. v.items ≡ node_hops_of sends.now pid) }
    ensures truth { IfOk result (λ v. (i : ℕ) (e : EventValue) (h : NodeHopValue)
        → slice_get (events_of sends.now pid) i ≡ Some e → slice_get v.items i ≡ Some h
        → IsTrueOnNode sends.now pid i e h) }
{
    let events = sends.streams().events(pid);
    let taken = sends.taken_by(alloc, events)?;
    let mut start = 0;
    let mut found = Vec::with_capacity(alloc, events.len())?;
    for index in 0..events.len() {
        start = next_start(events, index, start);
        let send = partner_at(&taken, index);
        found.push(hop_from(sends, events, pid, index, &events[index], start, send))?;
    }
    Ok(found)
}
