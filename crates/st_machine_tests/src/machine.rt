//! Tests of what no clause says: each call succeeds with ample memory. A call that fails fails its
//! test; `machine/refusals` has what comes back if memory runs out.

mod devices;
mod refusals;

use st_core::{Draft, Event, Kind, Label, Pid, Sequence, Serial};
use st_samples::p31;
use std::test::Fail;

/// A count so high that a test sees a body that gives up early, or has room for only a few.
const MANY: u64 = 100_000;

/// Returns a print with label 17, serial {0,1} and value 5.
fn print(from: Pid) -> Event {
    Event {
        label: Label(17),
        kind: Kind::Print,
        serial: Serial { prev: 0, this: 1 },
        from,
        to: None,
        value: 5,
    }
}

#[test]
fn a_sequence_keeps_many_items(rt: HostRuntime) -> Result<(), Fail> {
    let mut numbers = Sequence::new(rt.alloc());
    numbers.reserve(MANY as usize)?;
    for n in 0..MANY {
        numbers.push(n)?;
    }
    assert!(rt; numbers.len() as u64 == MANY);
    Ok(())
}

#[test]
fn streams_hold_many_processes_and_events(rt: HostRuntime) -> Result<(), Fail> {
    let mut draft = Draft::new(rt.alloc());
    // Opens more processes than there are slots for guesses, so many pids share a slot.
    for number in 0..5_000 {
        draft.open(Pid::new(number))?;
    }
    draft.reserve(p31(), MANY as usize)?;
    draft.reserve(Pid::on(1, 30), MANY as usize)?;
    for _ in 0..MANY {
        draft.add(p31(), print(p31()))?;
    }
    let streams = draft.close()?;
    assert!(rt; streams.pids().len() == 5_000 && streams.total() == MANY);
    Ok(())
}
