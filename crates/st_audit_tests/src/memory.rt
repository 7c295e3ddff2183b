//! Calls that run out of memory: each says so, and succeeds when it is made again. The tests show
//! that only if `rt try --test --fail-alloc N` fails the N-th allocation.

use crate::helpers::{same, sink_at_last, streams_at_last};
use lack_needs::renumbered;
use st_audit::{AuditFault, Finding, audit};
use st_chain::Chains;
use st_chart::{ChartFault, chart};
use st_core::{Act, Label, MemorySink, Pid, Serial, Streams};
use st_order::{Item, by_label, order};
use st_pair::{PairFault, Source, pair};
use st_plan::{QUIET, Start, ready};
use st_samples::{HIDDEN_SENDS_CERTIFICATE, ONE_MESSAGE, p30, p31};
use std::alloc::{AllocError, Global};
use std::test::Fail;
use std::thread::Threads;

#[test]
fn a_pairing_without_memory_may_be_asked_again(rt: HostRuntime) -> Result<(), Fail> {
    let alloc = rt.alloc();
    let streams = streams_at_last(&rt, alloc, ONE_MESSAGE);
    let pairing = match pair(alloc, &streams) {
        Err(PairFault::Memory) => pair(alloc, &streams)?,
        answer => answer?,
    };
    let sent = Some(Source::Event(p30(), 0));
    same(&rt, &pairing.source(p31(), 0), &sent);
    Ok(())
}

/// Returns the way back from the receive, over the chains of the streams' pairing.
fn way_back(alloc: Global, streams: &Streams) -> Option<Vec<(Pid, u64)>> {
    let pairing = pair(alloc, streams).ok()?;
    let chains = Chains::new(alloc, streams, &pairing).ok()?;
    chains.back(p31(), 0).ok()
}

#[test]
fn a_way_back_without_memory_may_be_asked_again(rt: HostRuntime) {
    let alloc = rt.alloc();
    let streams = streams_at_last(&rt, alloc, ONE_MESSAGE);
    let back = match way_back(alloc, &streams) {
        None => way_back(alloc, &streams),
        found => found,
    };
    let back = back.expect(&rt, "no way back");
    same(&rt, &back.as_slice(), &[(p31(), 0), (p30(), 0)].as_slice());
}

/// Returns how many items the streams have, and how many labels.
fn counts(
    rt: &(impl Threads + Sync),
    alloc: Global,
    streams: &Streams,
) -> Result<(usize, usize), AllocError> {
    let pairing = pair(alloc, streams).map_err(|_| AllocError)?;
    let items = order(rt, alloc, streams, &pairing)?;
    let groups = by_label(rt, alloc, streams, items.as_slice())?;
    Ok((items.len(), groups.len()))
}

#[test]
fn an_order_without_memory_may_be_asked_again(rt: HostRuntime) -> Result<(), Fail> {
    let alloc = rt.alloc();
    let streams = streams_at_last(&rt, alloc, HIDDEN_SENDS_CERTIFICATE);
    let found = match counts(&rt, alloc, &streams) {
        Ok(found) => found,
        Err(_) => counts(&rt, alloc, &streams)?,
    };
    // Four events, and two hidden sends.
    same(&rt, &found, &(6, 1));
    Ok(())
}

/// Plans the acts of a process whose clock is at 2, so that it gets to 5.
fn plan_of(alloc: Global) -> Result<Vec<Act>, AllocError> {
    let start = Start {
        token: None,
        clock: 2,
        last: 1,
    };
    let mut plan = Vec::new(alloc);
    let serial = Serial { prev: 1, this: 6 };
    ready(&mut plan, p30(), &start, Label(17), serial, QUIET)?;
    Ok(plan)
}

#[test]
fn a_plan_without_memory_may_be_asked_again(rt: HostRuntime) -> Result<(), Fail> {
    let alloc = rt.alloc();
    let plan = match plan_of(alloc) {
        Ok(plan) => plan,
        Err(_) => plan_of(alloc)?,
    };
    assert!(rt; plan.contains(&Act::Print(p30(), 0)));
    Ok(())
}

#[test]
fn an_audit_without_memory_may_be_asked_again(rt: HostRuntime) {
    let alloc = rt.alloc();
    let streams = streams_at_last(&rt, alloc, HIDDEN_SENDS_CERTIFICATE);
    let answer = match audit::<{ u64::MAX }>(&rt, alloc, &streams) {
        Err(AuditFault::Memory) => audit::<{ u64::MAX }>(&rt, alloc, &streams),
        answer => answer,
    };
    assert!(rt; matches!(answer, Ok(Finding::Fits(..))));
}

#[test]
fn a_renumbering_without_memory_may_be_asked_again(rt: HostRuntime) {
    let alloc = rt.alloc();
    let streams = streams_at_last(&rt, alloc, HIDDEN_SENDS_CERTIFICATE);
    let ranked = match renumbered(alloc, &streams) {
        Err(AllocError) => renumbered(alloc, &streams),
        ranked => ranked,
    };
    let ranked = ranked.expect(&rt, "not renumbered at the second try");
    same(&rt, &ranked.total(), &4);
}

/// Writes the chart of a hidden send and its receive.
fn chart_of(alloc: Global, sink: &mut MemorySink, streams: &Streams) -> Result<(), ChartFault> {
    let Ok(pairing) = pair(alloc, streams) else {
        return Err(ChartFault::Memory);
    };
    let Ok(chains) = Chains::new(alloc, streams, &pairing) else {
        return Err(ChartFault::Memory);
    };
    let items = [
        Item::Reported(p30(), 0),
        Item::Hidden(p31(), 0),
        Item::Reported(p31(), 0),
    ];
    chart(alloc, sink, streams, &chains, &items, Label(17))
}

/// Asserts that a chart that runs out of memory writes nothing.
#[test]
fn a_chart_without_memory_writes_nothing(rt: HostRuntime) {
    let alloc = rt.alloc();
    let streams = streams_at_last(&rt, alloc, HIDDEN_SENDS_CERTIFICATE);
    let mut sink = sink_at_last(&rt, alloc, 1000);
    if let Err(fault) = chart_of(alloc, &mut sink, &streams) {
        same(&rt, &fault, &ChartFault::Memory);
        assert!(rt; sink.written().is_empty());
        let again = chart_of(alloc, &mut sink, &streams);
        same(&rt, &again, &Ok(()));
    }
    assert!(rt; sink.written().starts_with(b"label 17\n"));
}
