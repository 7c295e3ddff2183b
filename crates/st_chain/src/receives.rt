//! Finds, for each send and print of a process, the last receive before it that has its prev as
//! count.
//!
//! Mostly that is the last receive of any count. So the table of the last receive with each count
//! is filled only when an event asks for an earlier receive, and only up to that event.

ghost use Rattle.std.specs.Prelude.{◌≡◌, ◌+◌, ◌≤◌, ℕ, List, Some, length, map, slice_get, IfOk};
ghost use Rattle.std.specs.Prelude.{OnOk};
ghost use Rattle.std.specs.BTreeMap.{get};
ghost use Rattle.std.specs.Ordering.{nat_cmp};
ghost use Rattle.st_core.specs.declared.types.Event.{Event as EventValue};
ghost use Rattle.st_core.specs.Streams.{IsStreams};
ghost use Rattle.st_chain.specs.Causes.{backs_from, received_before};
ghost use Rattle.st_chain.specs.Kept.{ArePassed};

use st_core::{Event, Kind, Sequence, Streams};
use std::alloc::{AllocError, Global};
use std::collections::BTreeMap;

/// The receives among the events of a process that a walk has passed.
#[derive(Drop)]
pub struct Passed {
    /// The count and the index of the last receive.
    pub last: Option<(u64, u64)>,
    /// The index of the last receive with each count, among the noted events.
    pub places: BTreeMap<u64, u64>,
    /// How many of the passed events `places` takes into account.
    pub noted: usize,
}

impl Passed {
    /// Returns the last receive with this count among the events before the index, all of which
    /// were passed.
    fn find(&mut self, events: &[Event], index: usize, this: u64) -> Result<Option<u64>, AllocError>
        requires within { index ≤ length events.now }
        requires passed { ArePassed events.now index self.old }
        ensures found { IfOk result (λ found. found ≡ received_before events.now this index) }
        ensures passed { OnOk result (ArePassed events.now index self.new) }
    {
        if let Some((count, place)) = self.last {
            if count == this {
                return Ok(Some(place));
            }
        }
        note_all(&mut self.places, events, self.noted, index)?;
        self.noted = index;
        Ok(self.places.get(&this).copied())
    }
}

/// Notes a receive's index under its count, and nothing for other events.
fn note(places: &mut BTreeMap<u64, u64>, event: &Event, index: u64) -> Result<(), AllocError>
    ensures { (es : List EventValue) → slice_get es index ≡ Some event.now
        → ((this : ℕ) → get nat_cmp places.old this ≡ received_before es this index)
        → OnOk result ((this : ℕ)
        → get nat_cmp places.new this ≡ received_before es this (index + 1)) }
{
    match event.kind {
        Kind::Send | Kind::Print => Ok(()),
        Kind::Receive => {
            let Ok(_) = places.insert(event.serial.this, index) else {
                return Err(AllocError);
            };
            Ok(())
        }
    }
}

/// Notes the receives among the events from index `from` up to index `to`.
fn note_all(
    places: &mut BTreeMap<u64, u64>,
    events: &[Event],
    from: usize,
    to: usize,
) -> Result<(), AllocError>
    requires from { from ≤ to }
    requires to { to ≤ length events.now }
    requires noted { (this : ℕ)
        → get nat_cmp places.old this ≡ received_before events.now this from }
    ensures { OnOk result ((this : ℕ)
        → get nat_cmp places.new this ≡ received_before events.now this to) }
{
    for i in from..to {
        note(places, &events[i], i as u64)?;
    }
    Ok(())
}

/// Returns, for each send and print of one process, the last receive before it that has its prev
/// as count; `None` for a receive.
fn backs(alloc: Global, events: &[Event]) -> Result<Vec<Option<u64>>, AllocError>
    ensures { IfOk result (λ v. v.items ≡ backs_from events.now 0 events.now) }
{
    let mut passed = Passed {
        last: None,
        places: BTreeMap::new(alloc),
        noted: 0,
    };
    let mut found = Vec::with_capacity(alloc, events.len())?;
    for (i, event) in events.iter().enumerate() {
        match event.kind {
            Kind::Receive => {
                passed.last = Some((event.serial.this, i as u64));
                found.push(None)?;
            }
            Kind::Send | Kind::Print => {
                found.push(passed.find(events, i, event.serial.prev)?)?;
            }
        }
    }
    Ok(found)
}

/// Returns the `backs` of each process.
pub fn all_backs(alloc: Global, streams: &Streams) -> Result<Vec<Sequence<Option<u64>>>, AllocError>
    ensures backs { IfOk result
        (λ v. v.items ≡ map (λ s. backs_from s.events 0 s.events) streams.now) }
    ensures streams { OnOk result (IsStreams streams.now) }
{
    let mut lists = Vec::new(alloc);
    for &pid in streams.pids() {
        let list = backs(alloc, streams.events(pid))?;
        lists.push(Sequence::from_vec(list))?;
    }
    Ok(lists)
}
