//! Calls that can run out of memory, each with 100,000 of the items that it takes. No clause can
//! say that memory is left, so the prover accepts a body that gives up at some size; the tests
//! don't. `text` of `st_machine_tests` tests the reader so, and `checks` of `st_audit_tests` the
//! check and the replay.

ghost use Rattle.std.specs.Prelude.{◌<◌};

mod arenas;

use crate::helpers::same;
use st_audit::{Finding, audit, told_acts};
use st_chain::Chains;
use st_chart::chart;
use st_core::{Act, Draft, Event, Kind, Label, MemorySink, Pid, Serial, Streams};
use st_order::{by_label, order};
use st_pair::pair;
use st_plan::{Everything, QUIET, Start, ready};
use st_samples::{p30, p31};
use std::alloc::Global;
use std::test::Fail;

/// The size that each call is tested with.
const MANY: u64 = 100_000;

/// The number of messages, each with a send and a receive.
const MESSAGES: u64 = 50_000;

/// Makes an event of message `this`, if 30 and 31 send to each other in turn.
fn message(kind: Kind, this: u64) -> Event {
    let (from, to) = if this % 2 == 1 {
        (p30(), p31())
    } else {
        (p31(), p30())
    };
    Event {
        label: Label(17),
        kind,
        serial: Serial {
            prev: this.saturating_sub(1),
            this,
        },
        from,
        to: Some(to),
        value: this,
    }
}

/// Makes the streams of a message that goes to and fro, each time reported by both: each event
/// causes the next.
fn to_and_fro(alloc: Global) -> Result<Streams, Fail> {
    let mut draft = Draft::new(alloc);
    draft.open(p30())?;
    draft.open(p31())?;
    for this in 1..=MESSAGES {
        let sent = message(Kind::Send, this);
        draft.add(sent.from, sent)?;
        let received = message(Kind::Receive, this);
        draft.add(received.to.unwrap_or(received.from), received)?;
    }
    Ok(draft.close()?)
}

#[test]
fn a_hundred_thousand_events_fit(rt: HostRuntime) -> Result<(), Fail> {
    let streams = to_and_fro(rt.alloc())?;
    match audit::<{ u64::MAX }>(&rt, rt.alloc(), &streams)? {
        Finding::Unfit(..) => panic!(rt; "unfit"),
        Finding::Fits(acts, pairs) => {
            // A tracer, the first token, and an act for each event.
            same(&rt, &acts.len(), &100_002);
            same(&rt, &pairs.len(), &50_000);
        }
    }
    Ok(())
}

#[test]
fn acts_that_tell_a_hundred_thousand_events_are_built(rt: HostRuntime) -> Result<(), Fail> {
    let streams = to_and_fro(rt.alloc())?;
    let acts = told_acts::<{ u64::MAX }, Everything>(&rt, rt.alloc(), &streams, &Everything)?;
    same(&rt, &acts.ok_or("no acts")?.len(), &100_002);
    Ok(())
}

#[test]
fn a_way_back_of_a_hundred_thousand_events_is_charted(rt: HostRuntime) -> Result<(), Fail> {
    let alloc = rt.alloc();
    let streams = to_and_fro(alloc)?;
    let pairing = pair(alloc, &streams)?;
    let chains = Chains::new(alloc, &streams, &pairing)?;
    let back = chains.back(p30(), MESSAGES - 1)?;
    same(&rt, &(back.len() as u64), &MANY);
    let items = order(&rt, alloc, &streams, &pairing)?;
    let mut sink = MemorySink::new(alloc, 10_000_000, None)?;
    chart(
        alloc,
        &mut sink,
        &streams,
        &chains,
        items.as_slice(),
        Label(17),
    )?;
    let lines = sink.written().iter().filter(|byte| **byte == b'\n').count();
    // The label, two lanes, and a row for each event.
    same(&rt, &lines, &100_003);
    Ok(())
}

/// The processes, and the prints of each.
const PROCESSES: u16 = 1_000;

const PRINTS: u16 = 100;

/// Makes a print of a process, with a label that no other print has.
fn lone_print(process: u16, number: u16) -> Event {
    let this = u64::from(number).saturating_add(1);
    let label = u32::from(process).wrapping_mul(u32::from(PRINTS));
    Event {
        label: Label(label.wrapping_add(u32::from(number))),
        kind: Kind::Print,
        serial: Serial {
            prev: this.saturating_sub(1),
            this,
        },
        from: Pid::new(process),
        to: None,
        value: this,
    }
}

fn lone_prints(alloc: Global) -> Result<Streams, Fail> {
    let mut draft = Draft::new(alloc);
    for process in 0..PROCESSES {
        draft.open(Pid::new(process))?;
        for number in 0..PRINTS {
            draft.add(Pid::new(process), lone_print(process, number))?;
        }
    }
    Ok(draft.close()?)
}

#[test]
fn a_hundred_thousand_labels_have_their_items_and_chains(rt: HostRuntime) -> Result<(), Fail> {
    let alloc = rt.alloc();
    let streams = lone_prints(alloc)?;
    let pairing = pair(alloc, &streams)?;
    let items = order(&rt, alloc, &streams, &pairing)?;
    same(&rt, &(items.len() as u64), &MANY);
    let groups = by_label(&rt, alloc, &streams, items.as_slice())?;
    same(&rt, &(groups.len() as u64), &MANY);
    let chains = Chains::new(alloc, &streams, &pairing)?;
    same(
        &rt,
        &chains.of(Pid::new(999), Label(99_999)).next(),
        &Some(99),
    );
    Ok(())
}

#[test]
fn a_trace_that_begins_a_hundred_thousand_above_the_clock_is_planned(
    rt: HostRuntime,
) -> Result<(), Fail> {
    let start = Start {
        token: None,
        clock: 0,
        last: 0,
    };
    let serial = Serial {
        prev: MANY,
        this: 2 * MANY,
    };
    let mut plan = Vec::new(rt.alloc());
    ready(&mut plan, p30(), &start, Label(17), serial, QUIET)?;
    let prints = plan.iter().filter(|act| matches!(act, Act::Print(_, _)));
    same(&rt, &(prints.count() as u64), &(2 * MANY - 1));
    Ok(())
}
