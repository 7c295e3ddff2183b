//! Finds the tree of all events that lead back to one.

ghost use Rattle.std.specs.Prelude.{◌≡◌, ◌==◌, ◌||◌, ◌+◌, ◌<◌, ◌^◌, ◌++◌, IfOk, OnOk, length, map};
ghost use Rattle.std.specs.Prelude.{reverse, option_to_list};
ghost use Rattle.node_hops.specs.Tree.{children, places_of, row_ahead, tree};
ghost use Rattle.node_hops.specs.Way.{node};

use crate::hops::NodeHops;
use crate::node::Node;
use crate::reach::Reach;
use crate::rows::row_length;
use st_core::{Event, Kind, Label, Pid};
use std::alloc::{AllocError, Global};

fn row_ahead(prev: u64, events: &[Event]) -> &[Event]
    ensures { result.now ≡ row_ahead prev events.now }
{
    &events[..row_length(prev, events)]
}

fn is_wanted(all: bool, label: Label, event: &Event) -> bool
    ensures { result ≡ (all || event.now.label.0 == label.0) }
{
    all || event.label.0 == label.0
}

/// Adds the events of a row, the last one first: those with the label, or all.
fn add_row(
    waiting: &mut Vec<Node>,
    depth: u64,
    all: bool,
    pid: Pid,
    label: Label,
    first: u64,
    row: &[Event],
) -> Result<(), AllocError>
    requires { first + length row.now < 2 ^ 64 }
    ensures { OnOk result (waiting.new.items ≡ waiting.old.items
        ++ reverse (map (λ x. node depth x) (places_of all pid label first row.now))) }
{
    let mut left = row.len();
    'events: while left > 0 {
        left -= 1;
        if is_wanted(all, label, &row[left]) {
            let place = (pid, first + left as u64);
            waiting.push(Node { depth, place })?;
        }
    }
    Ok(())
}

fn add_place(
    waiting: &mut Vec<Node>,
    depth: u64,
    place: Option<(Pid, u64)>,
) -> Result<(), AllocError>
    ensures { OnOk result (waiting.new.items ≡ waiting.old.items
        ++ reverse (map (λ x. node depth x) (option_to_list place))) }
{
    match place {
        None => Ok(()),
        Some(place) => {
            waiting.push(Node { depth, place })?;
            Ok(())
        }
    }
}

/// Adds the places directly below a place, the last one first.
fn add_children(
    waiting: &mut Vec<Node>,
    depth: u64,
    hops: &NodeHops,
    across: bool,
    place: (Pid, u64),
) -> Result<(), AllocError>
    ensures { OnOk result (waiting.new.items ≡ waiting.old.items
        ++ reverse (map (λ x. node depth x) (children hops.now across place))) }
{
    let (pid, index) = place;
    let Some(event) = hops.event(pid, index) else {
        return Ok(());
    };
    match event.kind {
        Kind::Print => Ok(()),
        Kind::Send => add_place(waiting, depth, hops.receiver(pid, index, &event)),
        Kind::Receive => {
            let behind = &hops.events(pid)[index as usize + 1..];
            let row = row_ahead(event.serial.this, behind);
            add_row(waiting, depth, across, pid, event.label, index + 1, row)
        }
    }
}

/// Returns all that follows the event at a place, as far as the reach goes: the place, and after
/// each place what is below it. If the events have no order in which each receive comes after its
/// send, the tree can go in a circle. Fails only if memory runs out. Its time grows as the number
/// of nodes does.
pub fn tree(
    alloc: Global,
    hops: &NodeHops,
    reach: Reach,
    place: (Pid, u64),
) -> Result<Vec<Node>, AllocError>
    ensures { IfOk result (λ v. v.items ≡ tree hops.now reach.across reach.most 0 place) }
{
    let mut nodes = Vec::new(alloc);
    let mut waiting = Vec::new(alloc);
    waiting.push(Node { depth: 0, place })?;
    while let Some(node) = waiting.pop() {
        if node.depth < reach.most {
            nodes.push(node)?;
            let below = node.depth + 1;
            add_children(&mut waiting, below, hops, reach.across, node.place)?;
        }
    }
    Ok(nodes)
}
