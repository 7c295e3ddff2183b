//! Driving scripts: one worker thread for each process, and the run that they made.

ghost use Rattle.std.specs.Prelude.{◌≡◌, ◌≢◌, ◌<◌, ◌≤◌, length, map, count_by, vec_len, All, IfOk};
ghost use Rattle.std.specs.Prelude.{IfErr, IsFalse, Some, None, MatchOption};
ghost use Rattle.st_runtime.specs.Driven.{IsDriven, IsDriveFault, IsRefused, acts_in, stamps_in};
ghost use Rattle.st_runtime.specs.System.{is_stamping};
ghost use Rattle.st_runtime.specs.Working.{IsFirstRefusal};

pub mod worker;

use crate::driver::worker::{Ending, WORKER_STACK, jobs_of, work_all};
use crate::fault::{ActFault, DriveFault};
use crate::join::join_driven;
use crate::join::record::Record;
use crate::pcb::acts::is_stamping;
use crate::system::System;
use crate::system::gate::Gate;
use st_core::{Act, Pid, Sequence};
use std::alloc::{AllocError, Global};
use std::sync::Wait;
use std::thread::Threads;

/// Makes the acts of script k in the process of pid k, in order, each process in a thread of its
/// own, and returns the one run that they made. Waits for locks and for the threads.
///
/// `DriveFault` says when it fails.
pub fn drive<const TOP: u64, const RANKS: u64, R: Threads + Wait + Sync, G: Gate + Sync>(
    rt: &R,
    alloc: Global,
    pids: &[Pid],
    scripts: Vec<Sequence<Act>>,
    gate: &G,
) -> Result<Record, DriveFault>
    requires { vec_len scripts ≡ length pids.now }
    ensures ok { IfOk result (IsDriven TOP RANKS pids.now scripts.items) }
    ensures err { IfErr result (IsDriveFault TOP RANKS pids.now scripts.items) }
{
    drive_on::<TOP, RANKS, R, G>(rt, alloc, pids, scripts, gate, WORKER_STACK)
}

/// Does what `drive` does, with stacks of `stack` bytes for the threads. An act of a whole node
/// takes up to two kilobytes of stack for each process of the node (`System::act`), and a thread
/// whose stack is too small ends the program.
pub fn drive_on<const TOP: u64, const RANKS: u64, R: Threads + Wait + Sync, G: Gate + Sync>(
    rt: &R,
    alloc: Global,
    pids: &[Pid],
    scripts: Vec<Sequence<Act>>,
    gate: &G,
    stack: usize,
) -> Result<Record, DriveFault>
    requires { vec_len scripts ≡ length pids.now }
    ensures ok { IfOk result (IsDriven TOP RANKS pids.now scripts.items) }
    ensures err { IfErr result (IsDriveFault TOP RANKS pids.now scripts.items) }
{
    let acts = acts_in(scripts.as_slice());
    let stamps = stamps_in(scripts.as_slice());
    let system = System::<TOP, RANKS>::open_for(alloc, pids, scripts.as_slice())?;
    let jobs = jobs_of(alloc, pids, scripts)?;
    let ends = work_all(rt, alloc, &system, gate, jobs, stack)?;
    if lacks_memory(ends.as_slice()) {
        return Err(DriveFault::Memory);
    }
    if let Some((pid, n, fault)) = first_refusal(ends.as_slice()) {
        let told = possible::<TOP, RANKS>(fault, acts, stamps);
        return Err(DriveFault::Act(pid, n, told));
    }
    let scripts = scripts_of(alloc, ends)?;
    let Ok(processes) = system.take_out() else {
        return Err(DriveFault::Memory);
    };
    Ok(join_driven(rt, alloc, processes, scripts)?)
}

/// Returns the number of acts in the scripts, or the greatest `u64` if there are more.
fn acts_in(scripts: &[Sequence<Act>]) -> u64
    ensures { result ≤ acts_in scripts.now }
{
    let mut total: u64 = 0;
    for script in scripts {
        total = total.saturating_add(script.len() as u64);
    }
    total
}

/// Returns the number of acts in the scripts that stamp a token, or the greatest `u64` if there
/// are more.
fn stamps_in(scripts: &[Sequence<Act>]) -> u64
    ensures { result ≤ stamps_in scripts.now }
{
    let mut total: u64 = 0;
    for script in scripts {
        total = total.saturating_add(stamps_of(script.as_slice()) as u64);
    }
    total
}

/// Returns the number of acts in a script that stamp a token.
fn stamps_of(script: &[Act]) -> usize
    ensures { result ≡ count_by is_stamping script.now }
{
    script.iter().filter(|act| is_stamping(act)).count()
}

/// Returns whether a worker ran out of memory.
fn lacks_memory(ends: &[Ending]) -> bool
    ensures { IsFalse result → All (λ end. end.fault ≢ Some ActFault.Memory) ends.now }
{
    for end in ends {
        if let Some(ActFault::Memory) = end.fault {
            return true;
        }
    }
    false
}

/// Returns the refusal of the first worker that met one: its pid, the number of the act in its
/// script, and the reason.
fn first_refusal(ends: &[Ending]) -> Option<(Pid, u64, ActFault)>
    ensures { MatchOption result
        (All (λ end. end.fault ≡ None) ends.now)
        (λ r. IsFirstRefusal ends.now r.0 r.1 r.2) }
{
    for end in ends {
        if let Some(fault) = end.fault {
            return Some((end.pid, end.made as u64, fault));
        }
    }
    None
}

/// Returns the refusal, or `Stray` in place of a full clock or rank that the scripts have too few
/// acts for.
fn possible<const TOP: u64, const RANKS: u64>(fault: ActFault, acts: u64, stamps: u64) -> ActFault
    requires { fault ≢ ActFault.Memory }
    ensures memory { result ≢ ActFault.Memory }
    ensures clock { result ≡ ActFault.ClockFull → TOP < stamps }
    ensures rank { result ≡ ActFault.RankFull → RANKS < acts }
    ensures refused { (pids : _) (p : _) (script : _) (n : _)
        → IsRefused pids p script n fault → IsRefused pids p script n result }
{
    match fault {
        ActFault::ClockFull if stamps <= TOP => ActFault::Stray,
        ActFault::RankFull if acts <= RANKS => ActFault::Stray,
        _ => fault,
    }
}

/// Returns the scripts that the workers gave back.
fn scripts_of(alloc: Global, ends: Vec<Ending>) -> Result<Vec<Sequence<Act>>, AllocError>
    ensures { IfOk result (λ v. v.items ≡ map (λ end. end.script) ends.items) }
{
    let mut scripts = Vec::with_capacity(alloc, ends.len())?;
    for end in ends {
        let Ok(()) = scripts.push(end.script) else {
            return Err(AllocError);
        };
    }
    Ok(scripts)
}
