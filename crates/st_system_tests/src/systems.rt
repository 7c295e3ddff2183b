//! Systems of 100,000 processes, and 100,000 acts of each kind, by one thread. No clause says that
//! the calls have enough memory, so the prover accepts a body that gives up at some size; the
//! tests don't.

use crate::helpers::{many_pids, same};
use st_core::{Act, Pid, Reply, Want};
use st_runtime::{OpenGate, Pieces, Seat, System, join_pieces};
use st_samples::{p30, p31};
use std::alloc::Global;
use std::process::Abort;
use std::sync::Wait;
use std::test::Fail;

/// The size that each call is tested with.
const MANY: usize = 100_000;

type Great = System<{ u64::MAX }, { u64::MAX }>;

/// Makes the act `times` times, and asserts each reply.
fn make_many<R: Wait + Abort>(
    rt: &R,
    system: &Great,
    seat: &mut Seat,
    act: &Act,
    reply: Reply,
    times: usize,
) {
    for _ in 0..times {
        same(rt, &system.act(rt, &OpenGate, seat, act), &Ok(reply));
    }
    same(rt, &seat.mine().len(), &times);
}

/// Gathers the pieces of a system and its seats.
fn pieces_of<R: Abort>(
    rt: &R,
    system: Great,
    seats: Vec<Seat>,
) -> Pieces<{ u64::MAX }, { u64::MAX }> {
    match system.gather(seats) {
        Ok(pieces) => pieces,
        Err(_) => panic!(rt; "not gathered"),
    }
}

/// Makes the act `MANY` times in a system of 30 and 31, and asserts that the record has all acts.
fn assert_joined<R: Wait + Abort>(
    rt: &R,
    alloc: Global,
    act: &Act,
    reply: Reply,
) -> Result<(), Fail> {
    let (system, mut seats) = Great::open(alloc, &[p30(), p31()])?;
    let Some(seat) = seats.first_mut() else {
        panic!(rt; "no seats");
    };
    make_many(rt, &system, seat, act, reply, MANY);
    let pieces = pieces_of(rt, system, seats);
    match join_pieces(alloc, &pieces) {
        Ok(record) => same(rt, &record.acts.len(), &MANY),
        Err(fault) => panic!(rt; "not joined: {fault:?}"),
    }
    Ok(())
}

#[test]
fn a_hundred_thousand_acts_of_one_process_are_joined(rt: HostRuntime) -> Result<(), Fail> {
    let alloc = rt.alloc();
    assert_joined(&rt, alloc, &Act::Print(p30(), 1), Reply::Done)?;
    assert_joined(
        &rt,
        alloc,
        &Act::Receive(p30(), Want::First),
        Reply::Nothing,
    )?;
    assert_joined(&rt, alloc, &Act::Send(p30(), p30(), 1), Reply::Done)
}

// Each act is in the logs of both processes.
#[test]
fn a_hundred_thousand_acts_on_two_processes_are_joined(rt: HostRuntime) -> Result<(), Fail> {
    let alloc = rt.alloc();
    assert_joined(&rt, alloc, &Act::Send(p30(), p31(), 1), Reply::Done)?;
    assert_joined(&rt, alloc, &Act::Reset(p30()), Reply::Done)?;
    assert_joined(&rt, alloc, &Act::Tracer(p30(), false), Reply::Was(false))
}

// The pieces aren't joined, since `join_pieces` looks for each pid among all seats.
#[test]
fn a_system_of_a_hundred_thousand_processes_is_gathered(rt: HostRuntime) -> Result<(), Fail> {
    let pids = many_pids(rt.alloc())?;
    let (system, mut seats) = Great::open(rt.alloc(), pids.as_slice())?;
    same(&rt, &seats.len(), &MANY);
    let Some(seat) = seats.first_mut() else {
        panic!(rt; "no seats");
    };
    let away = Act::Send(Pid::on(0, 0), Pid::on(1, 49_999), 1);
    make_many(&rt, &system, seat, &away, Reply::Done, 1);
    let _pieces = pieces_of(&rt, system, seats);
    Ok(())
}
