//! Looks for an order of all events.

ghost use Rattle.std.specs.Prelude.{◌≡◌, ◌≢◌, [], List, None, Some, IfOk};
ghost use Rattle.st_core.specs.declared.types.Event.{Event as EventValue};
ghost use Rattle.st_core.specs.declared.types.Pid.{Pid as PidValue};
ghost use Rattle.node_streams.specs.Order.{HaveOrder, next_event};
ghost use Rattle.node_streams.specs.Messages.{all_taken_sends};
ghost use Rattle.node_streams.specs.Tables.{IsAt};

use crate::walk::Walk;
use st_core::{Pid, Sequence, Streams};
use std::alloc::{AllocError, Global};

/// Returns the next event of each process that has one left.
fn events_left(alloc: Global, streams: &Streams, walk: &Walk) -> Result<Vec<(Pid, u64)>, AllocError>
    ensures none { (order : List PidValue) → IsAt streams.now order walk.now → IfOk result (λ v.
        v.items ≡ [] → (p : PidValue) → next_event streams.now order p ≡ None) }
    ensures some { (order : List PidValue) → IsAt streams.now order walk.now → IfOk result (λ v.
        v.items ≢ []
        → (p : PidValue) × (e : EventValue) × (next_event streams.now order p ≡ Some e)) }
{
    let mut left = Vec::new(alloc);
    for (place, &pid) in streams.pids().iter().enumerate() {
        let index = walk.done_at(place);
        if streams.event(pid, index).is_some() {
            left.push((pid, index))?;
        }
    }
    Ok(left)
}

/// Walks through all events in an order. Returns the next event of each process that can't go on,
/// and so nothing if all events have an order.
pub(crate) fn cycle(
    alloc: Global,
    streams: &Streams,
    taken: &[Sequence<Option<u64>>],
) -> Result<Vec<(Pid, u64)>, AllocError>
    requires taken { taken.now ≡ all_taken_sends streams.now }
    ensures none { IfOk result (λ v. v.items ≡ [] → HaveOrder streams.now) }
    ensures some { IfOk result (λ v. v.items ≢ [] → ¬ (HaveOrder streams.now)) }
{
    let mut walk = Walk::new(alloc, streams)?;
    while let Some((place, event)) = walk.next(streams, taken) {
        walk.go(streams, place, &event)?;
        walk.go_far(streams, taken, place)?;
    }
    events_left(alloc, streams, &walk)
}
