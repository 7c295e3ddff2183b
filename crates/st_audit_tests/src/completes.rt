//! Completions and their acts: that they are found, of 100,000 events too, and found again after
//! memory ran out.

use crate::helpers::{same, streams_at_last};
use lack_decide::{
    Answer, CertificateFault, CompleteFault, Completion, Never, certificate, complete, renumbered,
};
use st_audit::told_acts;
use st_check::{Verdict, check};
use st_core::{Draft, Event, Kind, Label, Serial, Streams};
use st_samples::{p30, p31};
use std::alloc::Global;
use std::process::Abort;
use std::test::Fail;

/// The greatest clock of the program.
const MOST: u64 = u64::MAX;

/// 30 received a message of 3 and then goes on from a message of 2 that nobody reported.
const NEEDING: &str = "seqtrace 1\n\
    process <0.30.0>\n\
    {seq_trace,1,{'receive',{0,3},<0.31.0>,<0.30.0>,4}}\n\
    {seq_trace,1,{send,{2,4},<0.30.0>,<0.31.0>,5}}\n\
    process <0.31.0>\n";

/// 30 goes on from a message before its print of 2, and so had no need of 0 when it sent 3.
const UNFOUNDED: &str = "seqtrace 1\n\
    process <0.30.0>\n\
    {seq_trace,1,{print,{1,2},<0.30.0>,[],4}}\n\
    process <0.31.0>\n\
    {seq_trace,1,{'receive',{0,3},<0.30.0>,<0.31.0>,5}}\n";

/// Two processes send one message each, and one of them prints: five events under one token.
const REQUEST: &str = "seqtrace 1\n\
    process <0.30.0>\n\
    {seq_trace,1,{send,{0,1},<0.30.0>,<0.31.0>,4}}\n\
    {seq_trace,1,{'receive',{1,2},<0.31.0>,<0.30.0>,4}}\n\
    {seq_trace,1,{print,{2,3},<0.30.0>,[],4}}\n\
    process <0.31.0>\n\
    {seq_trace,1,{'receive',{0,1},<0.30.0>,<0.31.0>,4}}\n\
    {seq_trace,1,{send,{1,2},<0.31.0>,<0.30.0>,4}}\n";

/// Returns the completion of the streams, at the second try if memory runs out.
fn completion_at_last(rt: &impl Abort, alloc: Global, streams: &Streams) -> Completion {
    let answer = match complete::<MOST>(alloc, streams) {
        Err(CompleteFault::Memory) => complete::<MOST>(alloc, streams),
        answer => answer,
    };
    match answer {
        Ok(Answer::Whole(completion)) => completion,
        _ => panic!(rt; "no completion at the second try"),
    }
}

#[test]
fn a_token_is_set_once(rt: HostRuntime) -> Result<(), Fail> {
    let streams = streams_at_last(&rt, rt.alloc(), REQUEST);
    let completion = completion_at_last(&rt, rt.alloc(), &streams);
    let found = certificate::<MOST>(&rt, rt.alloc(), &streams, &completion, 7)?;
    // A tracer, a token, and the five events.
    same(&rt, &found.acts.len(), &7);
    let fewer = certificate::<MOST>(&rt, rt.alloc(), &streams, &completion, 6);
    assert!(rt; matches!(fewer, Err(CertificateFault::TooManyActs)));
    Ok(())
}

#[test]
fn the_acts_of_the_construction_show_the_streams(rt: HostRuntime) -> Result<(), Fail> {
    let streams = streams_at_last(&rt, rt.alloc(), REQUEST);
    let completion = completion_at_last(&rt, rt.alloc(), &streams);
    let whole = completion.streams();
    let acts = told_acts::<MOST, Completion>(&rt, rt.alloc(), whole, &completion)?.ok_or("none")?;
    let verdict = check::<MOST>(rt.alloc(), &streams, acts.as_slice())?;
    assert!(rt; matches!(verdict, Verdict::Yes(_)));
    Ok(())
}

/// Asserts that a call that ran out of memory finds the completion when it is made again.
#[test]
fn a_completion_without_memory_may_be_asked_again(rt: HostRuntime) {
    let alloc = rt.alloc();
    let streams = streams_at_last(&rt, alloc, NEEDING);
    let completion = completion_at_last(&rt, alloc, &streams);
    // The hidden send of 3, and the receive of 2 with its send.
    same(&rt, &completion.added(), &3);
}

/// Asserts that a call that ran out of memory finds why there is no completion when it is made
/// again.
#[test]
fn a_reason_without_memory_may_be_asked_again(rt: HostRuntime) {
    let alloc = rt.alloc();
    let streams = streams_at_last(&rt, alloc, UNFOUNDED);
    let answer = match complete::<MOST>(alloc, &streams) {
        Err(CompleteFault::Memory) => complete::<MOST>(alloc, &streams),
        answer => answer,
    };
    assert!(rt; matches!(answer, Ok(Answer::Never(_, 0, Never::Unfounded))));
}

/// Asserts that a call that ran out of memory finds a completion's acts when it is made again.
#[test]
fn a_certificate_without_memory_may_be_asked_again(rt: HostRuntime) {
    let alloc = rt.alloc();
    let streams = streams_at_last(&rt, alloc, NEEDING);
    let completion = completion_at_last(&rt, alloc, &streams);
    let found = match certificate::<MOST>(&rt, alloc, &streams, &completion, 100) {
        Err(CertificateFault::Memory) => {
            certificate::<MOST>(&rt, alloc, &streams, &completion, 100)
        }
        found => found,
    };
    assert!(rt; matches!(found, Ok(_)));
}

/// The number of messages that 31 received.
const RECEIVES: u64 = 100_000;

/// Makes the streams of 30 and 31, in which 31 received `RECEIVES` messages of 30 and nobody
/// reported their sends.
fn receives_of_hidden_sends(alloc: Global) -> Result<Streams, Fail> {
    let mut draft = Draft::new(alloc);
    draft.open(p30())?;
    draft.open(p31())?;
    for this in 1..=RECEIVES {
        let event = Event {
            label: Label(1),
            kind: Kind::Receive,
            serial: Serial { prev: 0, this },
            from: p30(),
            to: Some(p31()),
            value: 0,
        };
        draft.add(p31(), event)?;
    }
    Ok(draft.close()?)
}

#[test]
fn a_hundred_thousand_hidden_sends_are_completed_and_certified(
    rt: HostRuntime,
) -> Result<(), Fail> {
    let streams = receives_of_hidden_sends(rt.alloc())?;
    let Answer::Whole(completion) = complete::<MOST>(rt.alloc(), &streams)? else {
        panic!(rt; "not completed");
    };
    same(&rt, &completion.added(), &RECEIVES);
    let limit = 1_000_000;
    let found = certificate::<MOST>(&rt, rt.alloc(), &streams, &completion, limit)?;
    same(&rt, &(found.pairs.len() as u64), &RECEIVES);
    let ranked = renumbered(rt.alloc(), completion.streams())?;
    same(&rt, &ranked.total(), &(2 * RECEIVES));
    Ok(())
}
