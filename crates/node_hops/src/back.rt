//! Finds the way back from an event.

ghost use Rattle.std.specs.Prelude.{◌≡◌, Some, IfOk};
ghost use Rattle.node_hops.specs.Way.{next_at, next_of, way};

use crate::hop::NodeHop;
use crate::hops::NodeHops;
use crate::node::Node;
use crate::reach::Reach;
use st_core::Pid;
use std::alloc::{AllocError, Global};

fn next_of(across: bool, pid: Pid, hop: NodeHop) -> Option<(Pid, u64)>
    ensures { result ≡ next_of across pid hop }
{
    match hop {
        NodeHop::Sent(from, index) => Some((from, index)),
        NodeHop::After(index) => Some((pid, index)),
        NodeHop::OtherLabel(index, _) => { if across { Some((pid, index)) } else { None } }
        NodeHop::Unsent | NodeHop::Begins | NodeHop::Moved(_) => None,
    }
}

fn next_at(hops: &NodeHops, across: bool, place: (Pid, u64)) -> Option<(Pid, u64)>
    ensures { result ≡ next_at hops.now across place }
{
    let (pid, index) = place;
    match hops.event(pid, index) {
        None => None,
        Some(event) => next_of(across, pid, hops.hop(pid, index, &event)),
    }
}

/// Returns the way back from a place, which comes first, even if no event is there. If the events
/// have no order in which each receive comes after its send, the way can go in a circle. Fails
/// only if memory runs out.
pub fn way(
    alloc: Global,
    hops: &NodeHops,
    reach: Reach,
    place: (Pid, u64),
) -> Result<Vec<Node>, AllocError>
    ensures { IfOk result (λ v. v.items ≡ way hops.now reach.across reach.most 0 (Some place)) }
{
    let mut list = Vec::new(alloc);
    let mut at = Some(place);
    for depth in 0..reach.most {
        let Some(place) = at else {
            return Ok(list);
        };
        list.push(Node { depth, place })?;
        at = next_at(hops, reach.across, place);
    }
    Ok(list)
}
