//! Finds rows: sends and prints with one prev, one after the other.

ghost use Rattle.std.specs.Prelude.{◌≡◌, ◌-◌, ◌<◌, ◌≤◌, IfOk, Some, length, slice_get};
ghost use Rattle.st_core.specs.declared.types.Event.{Event as EventValue};
ghost use Rattle.std.specs.List.{prefix_len};
ghost use Rattle.node_hops.specs.Kept.{row_firsts};
ghost use Rattle.node_hops.specs.Events.{is_in_row, take_before, row_first};

use st_core::{Event, Kind};
use std::alloc::{AllocError, Global};

pub(crate) fn is_in_row(prev: u64, event: &Event) -> bool
    ensures { result ≡ is_in_row prev event.now }
{
    match event.kind {
        Kind::Send | Kind::Print => event.serial.prev == prev,
        Kind::Receive => false,
    }
}

/// Returns how many events, from the first one on, are in the row.
pub(crate) fn row_length(prev: u64, events: &[Event]) -> usize
    ensures value { result ≡ prefix_len (λ e. is_in_row prev e) events.now }
    ensures len { result ≤ length events.now }
{
    events
        .iter()
        .take_while(|event| is_in_row(prev, event))
        .count()
}

/// Returns where the row up to the event at an index begins, if the row up to the event before it
/// begins at `before`.
#[tactic(auto, using(crate::proofs::Starts::next_start))]
pub(crate) fn next_start(events: &[Event], index: usize, before: usize) -> usize
    requires within { index < length events.now }
    requires before { (d : EventValue) → 0 < index → slice_get events.now (index - 1) ≡ Some d
        → before ≡ row_first d.serial.prev events.now (index - 1) }
    ensures { (e : EventValue) → slice_get events.now index ≡ Some e
        → result ≡ row_first e.serial.prev events.now index }
{
    if index == 0 {
        return 0;
    }
    if is_in_row(events[index].serial.prev, &events[index - 1]) {
        before
    } else {
        index
    }
}

pub(crate) fn row_firsts(alloc: Global, events: &[Event]) -> Result<Vec<usize>, AllocError>
    ensures { IfOk result (λ v. v.items ≡ row_firsts events.now) }
{
    let mut start = 0;
    let mut found = Vec::with_capacity(alloc, events.len())?;
    for index in 0..events.len() {
        start = next_start(events, index, start);
        found.push(start)?;
    }
    Ok(found)
}

/// Returns the index before the given one, if a receive with the count is there.
pub(crate) fn take_before(this: u64, events: &[Event], index: usize) -> Option<u64>
    requires { index ≤ length events.now }
    ensures { result ≡ take_before this events.now index }
{
    if index == 0 {
        return None;
    }
    let event = &events[index - 1];
    match event.kind {
        Kind::Send | Kind::Print => None,
        Kind::Receive => {
            if event.serial.this == this {
                Some(index as u64 - 1)
            } else {
                None
            }
        }
    }
}
