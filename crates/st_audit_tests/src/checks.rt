//! Checks and replays: of more than 100,000 acts, and again after memory ran out.

use crate::helpers::{same, streams_at_last};
use st_check::{CheckFault, ReplayFault, Replayed, Reports, Verdict, check, replay, reports};
use st_core::{Act, Component, Label, Streams, Want};
use st_samples::{p30, p31};
use std::alloc::{AllocError, Global};
use std::test::Fail;

/// The greatest clock of the program.
const MOST: u64 = u64::MAX;

/// The receive of 30's send of 5.
const RECEIVED: &str = "seqtrace 1\n\
    process <0.30.0>\n\
    process <0.31.0>\n\
    {seq_trace,1,{'receive',{0,1},<0.30.0>,<0.31.0>,5}}\n";

/// Returns how many pairs `check` finds, or None if it doesn't say yes.
fn pair_count(alloc: Global, streams: &Streams, acts: &[Act]) -> Result<Option<usize>, CheckFault> {
    match check::<MOST>(alloc, streams, acts)? {
        Verdict::Yes(pairs) => Ok(Some(pairs.len())),
        _ => Ok(None),
    }
}

/// Replays the acts, and returns the streams and the number of replies; None if an act is stuck.
fn replayed(alloc: Global, acts: &[Act]) -> Result<Option<(Streams, usize)>, ReplayFault> {
    match replay::<MOST>(alloc, &[p30(), p31()], acts)? {
        Replayed::Ran(streams, replies) => Ok(Some((streams, replies.len()))),
        Replayed::Stuck(_) => Ok(None),
    }
}

/// Returns how many events the acts report, or None if an act is stuck.
fn report_count(alloc: Global, acts: &[Act]) -> Result<Option<u64>, ReplayFault> {
    match reports::<MOST>(alloc, &[p30(), p31()], acts)? {
        Reports::Ran(streams) => Ok(Some(streams.total())),
        Reports::Stuck(_) => Ok(None),
    }
}

/// Makes `count` traced sends, each received at once.
fn exchanges(alloc: Global, count: u64) -> Result<Vec<Act>, AllocError> {
    let mut acts = Vec::new(alloc);
    acts.push(Act::Tracer(p30(), true))?;
    acts.push(Act::Set(p30(), Component::Receive(true)))?;
    for value in 0..count {
        acts.push(Act::Send(p30(), p31(), value))?;
        acts.push(Act::Receive(p31(), Want::First))?;
    }
    Ok(acts)
}

#[test]
fn a_hundred_thousand_acts_are_replayed_and_checked(rt: HostRuntime) -> Result<(), Fail> {
    let acts = exchanges(rt.alloc(), 60_000)?;
    let (streams, replies) = replayed(rt.alloc(), &acts)?.ok_or("stuck")?;
    same(&rt, &replies, &120_002);
    same(&rt, &report_count(rt.alloc(), &acts)?, &Some(60_000));
    let pairs = pair_count(rt.alloc(), &streams, &acts)?;
    same(&rt, &pairs, &Some(60_000));
    Ok(())
}

/// A traced send and its receive.
fn send_one() -> [Act; 5] {
    [
        Act::Tracer(p30(), true),
        Act::Set(p30(), Component::Label(Label(1))),
        Act::Set(p30(), Component::Receive(true)),
        Act::Send(p30(), p31(), 5),
        Act::Receive(p31(), Want::First),
    ]
}

// If memory runs out, a call returns Memory and succeeds when it is made again. The three tests
// show that only if they run with an allocation that fails.
#[test]
fn a_check_without_memory_may_be_asked_again(rt: HostRuntime) {
    let alloc = rt.alloc();
    let streams = streams_at_last(&rt, alloc, RECEIVED);
    let pairs = match pair_count(alloc, &streams, &send_one()) {
        Err(CheckFault::Memory) => pair_count(alloc, &streams, &send_one()),
        pairs => pairs,
    };
    same(&rt, &pairs, &Ok(Some(1)));
}

#[test]
fn a_replay_without_memory_may_be_asked_again(rt: HostRuntime) -> Result<(), Fail> {
    let alloc = rt.alloc();
    let ran = match replayed(alloc, &send_one()) {
        Err(ReplayFault::Memory) => replayed(alloc, &send_one())?,
        ran => ran?,
    };
    let (streams, replies) = ran.ok_or("stuck")?;
    same(&rt, &(streams.total(), replies), &(1, 5));
    Ok(())
}

#[test]
fn reports_without_memory_may_be_asked_again(rt: HostRuntime) {
    let alloc = rt.alloc();
    let count = match report_count(alloc, &send_one()) {
        Err(ReplayFault::Memory) => report_count(alloc, &send_one()),
        count => count,
    };
    same(&rt, &count, &Ok(Some(1)));
}
