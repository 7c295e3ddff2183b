//! Driven scripts: refusals, and drives that are made again after memory ran out.

use crate::helpers::same;
use st_core::{Act, Component, Label, Pid, Sequence, Want};
use st_runtime::{ActFault, DriveFault, OpenGate, Record, drive, drive_on};
use std::alloc::Global;
use std::process::Abort;
use std::sync::Wait;
use std::test::Fail;
use std::thread::Threads;

/// Drives the scripts, one for each pid.
fn drive_once<const TOP: u64, const RANKS: u64, R: Threads + Wait + Sync + Abort>(
    rt: &R,
    alloc: Global,
    pids: &[Pid],
    scripts: &[&[Act]],
) -> Result<Record, DriveFault> {
    let mut all = Vec::new(alloc);
    for script in scripts {
        let script = Sequence::from_vec(Vec::from_slice(alloc, *script)?);
        let Ok(()) = all.push(script) else {
            return Err(DriveFault::Memory);
        };
    }
    assert_eq!(rt; all.len(), pids.len());
    drive::<TOP, RANKS, R, OpenGate>(rt, alloc, pids, all, &OpenGate)
}

/// Asserts that the scripts aren't driven for the expected reason, at the second try if memory or
/// a thread was refused.
fn assert_refused<const TOP: u64, const RANKS: u64, R: Threads + Wait + Sync + Abort>(
    rt: &R,
    alloc: Global,
    pids: &[Pid],
    scripts: &[&[Act]],
    expected: DriveFault,
) {
    let driven = match drive_once::<TOP, RANKS, R>(rt, alloc, pids, scripts) {
        Err(DriveFault::Memory | DriveFault::Thread) => {
            drive_once::<TOP, RANKS, R>(rt, alloc, pids, scripts)
        }
        answer => answer,
    };
    match driven {
        Ok(_) => panic!(rt; "driven"),
        Err(fault) => same(rt, &fault, &expected),
    }
}

#[test]
fn refused_acts_and_falling_pids(rt: HostRuntime) {
    let alloc = rt.alloc();
    let me = Pid::new(30);
    let other = Pid::new(31);
    let look = Act::Look(me);
    let print = Act::Print(me, 0);
    let set = Act::Set(me, Component::Label(Label(1)));
    let foreign = DriveFault::Act(me, 0, ActFault::NotYours);
    let both = [me, other];
    assert_refused::<9, 9, _>(&rt, alloc, &both, &[&[Act::Look(other)], &[]], foreign);
    let nobody = Act::Look(Pid::new(99));
    assert_refused::<9, 9, _>(&rt, alloc, &both, &[&[nobody], &[nobody]], foreign);
    let falling = DriveFault::NotRising;
    assert_refused::<9, 9, _>(&rt, alloc, &[other, me], &[&[], &[]], falling);
    // A full rank and a full clock are told, though a later process is refused its act too.
    let rank = DriveFault::Act(me, 3, ActFault::RankFull);
    let looks = [look, look, look, look];
    assert_refused::<9, 3, _>(&rt, alloc, &both, &[&looks, &[nobody]], rank);
    let clock = DriveFault::Act(me, 4, ActFault::ClockFull);
    let prints = [set, print, print, print, print];
    assert_refused::<3, 9, _>(&rt, alloc, &both, &[&prints, &[nobody]], clock);
}

/// Drives an empty script of one process in a thread whose stack has `stack` bytes.
fn on_stack<R: Threads + Wait + Sync + Abort>(
    rt: &R,
    alloc: Global,
    stack: usize,
) -> Result<Record, DriveFault> {
    let pids = [Pid::new(30)];
    let mut scripts = Vec::new(alloc);
    let Ok(()) = scripts.push(Sequence::new(alloc)) else {
        return Err(DriveFault::Memory);
    };
    assert_eq!(rt; scripts.len(), pids.len());
    drive_on::<9, 9, R, OpenGate>(rt, alloc, &pids, scripts, &OpenGate, stack)
}

// No thread has a stack of `usize::MAX` bytes.
#[test]
fn a_refused_thread_is_told(rt: HostRuntime) {
    let refused = match on_stack(&rt, rt.alloc(), usize::MAX) {
        Err(DriveFault::Memory) => on_stack(&rt, rt.alloc(), usize::MAX),
        answer => answer,
    };
    match refused {
        Ok(_) => panic!(rt; "driven"),
        Err(fault) => same(&rt, &fault, &DriveFault::Thread),
    }
}

/// Act n of a busy process: sends to the other processes, receives, sets and prints.
fn busy_act(me: Pid, n: u16) -> Act {
    let other = Pid::new(30 + me.number().wrapping_add(n) % 4);
    match n % 10 {
        0 => Act::Set(me, Component::Print(true)),
        1 => Act::Send(me, other, 1),
        2 => Act::Receive(me, Want::First),
        3 => Act::Print(me, 3),
        4 => Act::Send(me, other, 2),
        5 => Act::Receive(me, Want::From(other)),
        6 => Act::PrintAt(me, Label(0), 4),
        7 => Act::Receive(me, Want::Value(2)),
        8 => Act::Receive(me, Want::Place(0)),
        _ => match n {
            19 => Act::Reset(me),
            29 => Act::Tracer(me, true),
            _ => Act::Clear(me),
        },
    }
}

/// Drives four scripts of fifty acts each, and returns how many acts the record has.
fn drive_four_busy<R: Threads + Wait + Sync + Abort>(
    rt: &R,
    alloc: Global,
) -> Result<usize, DriveFault> {
    let pids = [Pid::new(30), Pid::new(31), Pid::new(32), Pid::new(33)];
    let mut scripts = Vec::new(alloc);
    for pid in &pids {
        let mut script = Sequence::new(alloc);
        for n in 0..50 {
            let Ok(()) = script.push(busy_act(*pid, n)) else {
                return Err(DriveFault::Memory);
            };
        }
        let Ok(()) = scripts.push(script) else {
            return Err(DriveFault::Memory);
        };
    }
    assert_eq!(rt; scripts.len(), pids.len());
    let record = drive::<1_000, 1_000, R, OpenGate>(rt, alloc, &pids, scripts, &OpenGate)?;
    Ok(record.acts.len())
}

/// Asserts that a drive is right, or returns that memory ran out or that a thread couldn't be
/// started and is right when it is made again.
#[test]
fn a_drive_without_memory_may_be_asked_again(rt: HostRuntime) -> Result<(), Fail> {
    let acts = match drive_four_busy(&rt, rt.alloc()) {
        Err(DriveFault::Memory | DriveFault::Thread) => drive_four_busy(&rt, rt.alloc())?,
        answer => answer?,
    };
    same(&rt, &acts, &200);
    Ok(())
}
