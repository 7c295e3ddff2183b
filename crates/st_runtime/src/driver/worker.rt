//! The workers of a drive: each makes the acts of one script in a thread of its own.

ghost use Rattle.std.specs.Prelude.{◌≡◌, map, zip, IfOk, IfErr, IfSome, Some};
ghost use Rattle.st_runtime.specs.Working.{IsPlayed, LeavesEnding, AreWorked, IsOwnFault};

use crate::fault::{ActFault, DriveFault};
use crate::system::System;
use crate::system::gate::Gate;
use core::thread::Stack;
use st_core::{Act, Pid, Sequence};
use std::alloc::{AllocError, Global};
use std::marker::Model;
use std::snapshot::Snapshot;
use std::sync::Wait;
use std::sync::atomic::{AtomicBool, Ordering};
use std::thread;
use std::thread::{Promise, Threads};

/// The stack of a worker's thread, in bytes. An act of a whole node takes a frame for each process
/// of the node (`System::act`), and an input of the program has up to 1,024 processes.
pub const WORKER_STACK: usize = 2_097_152;

/// The job of a worker: a pid and its script.
#[derive(Drop)]
pub struct Job {
    pid: Pid,
    script: Sequence<Act>,
}

impl Model for Job {
    ghost use Rattle.std.specs.Prelude.{List};
    ghost use Rattle.st_core.specs.declared.types.Act.{Act};
    ghost use Rattle.st_core.specs.declared.types.Pid.{Pid};

    ghost Value = { Pid × List Act };

    ghost view = { λ t. (t.pid, t.script) };
}

/// The end of a worker: its script, the number of acts that were made, and the refusal at which it
/// stopped, if it met one.
#[derive(Drop)]
pub struct Ending {
    pub pid: Pid,
    pub script: Sequence<Act>,
    pub made: usize,
    pub fault: Option<ActFault>,
}

/// Makes a job for each pid and its script.
pub fn jobs_of(
    alloc: Global,
    pids: &[Pid],
    scripts: Vec<Sequence<Act>>,
) -> Result<Vec<Job>, AllocError>
    ensures { IfOk result (λ v. v.items ≡ zip pids.now scripts.items) }
{
    let mut jobs = Vec::with_capacity(alloc, pids.len())?;
    for (pid, script) in pids.iter().zip(scripts) {
        let Ok(()) = jobs.push(Job { pid: *pid, script }) else {
            return Err(AllocError);
        };
    }
    Ok(jobs)
}

/// A worker with its job in a system.
#[derive(Drop)]
struct Leaves<const TOP: u64, const RANKS: u64> {
    system: Snapshot<System<TOP, RANKS>>,
    job: Snapshot<Job>,
}

impl<const TOP: u64, const RANKS: u64> Promise<Option<Ending>> for Leaves<TOP, RANKS> {
    ghost kept_by = { λ p left. LeavesEnding p.system.value p.job.value left };
}

/// Runs all workers at once, each in a thread of its own with a stack of `stack` bytes. If a
/// thread can't be started, those that were started stop before their next act, and are waited
/// for.
///
/// Fails with `Thread`, else with `Memory`; but with `Memory` at once if there is no room for the
/// threads.
pub fn work_all<const TOP: u64, const RANKS: u64, R: Threads + Wait + Sync, G: Gate + Sync>(
    rt: &R,
    alloc: Global,
    system: &System<TOP, RANKS>,
    gate: &G,
    jobs: Vec<Job>,
    stack: usize,
) -> Result<Vec<Ending>, DriveFault>
    ensures ok { IfOk result (λ v. AreWorked system.now jobs.items v.items) }
    ensures err { IfErr result IsOwnFault }
{
    let stop = &AtomicBool::new(false);
    thread::scope(
        thread::scope_env(),
        rt,
        |scope| -> Result<Vec<Ending>, DriveFault>
            ensures ok { IfOk result (λ v. AreWorked system.entry.now jobs.items v.items) }
            ensures err { IfErr result IsOwnFault }
        {
            let Ok(mut workers) = Vec::with_capacity(alloc, jobs.len()) else {
                return Err(DriveFault::Memory);
            };
            for job in jobs {
                let leaves = Leaves {
                    system: Snapshot::of(system),
                    job: Snapshot::of(&job),
                };
                let work = move || -> Option<Ending>
                    ensures { LeavesEnding system.entry.now job result }
                { work(rt, system, gate, stop, job) };
                let thread = Stack::new().stack_size(stack);
                let Ok(worker) = thread.spawn_scoped_with(scope, leaves, work) else {
                    stop.store(true, Ordering::SeqCst);
                    return Err(DriveFault::Thread);
                };
                let Ok(()) = workers.push(worker) else {
                    return Err(DriveFault::Memory);
                };
            }
            match thread::join_promised(rt, workers) {
                Ok(left) => all_ended(alloc, left),
                Err(_) => Err(DriveFault::Memory),
            }
        },
    )
}

/// Returns the endings of the workers, or a fault if one was told to stop.
fn all_ended(alloc: Global, left: Vec<Option<Ending>>) -> Result<Vec<Ending>, DriveFault>
    ensures ok { IfOk result (λ v. map (λ end. Some end) v.items ≡ left.items) }
    ensures err { IfErr result IsOwnFault }
{
    let mut ends = Vec::with_capacity(alloc, left.len())?;
    for end in left {
        let Some(end) = end else {
            return Err(DriveFault::Thread);
        };
        let Ok(()) = ends.push(end) else {
            return Err(DriveFault::Memory);
        };
    }
    Ok(ends)
}

/// Makes the script's acts in order until one is refused, and returns nothing if it is told to
/// stop before the end.
fn work<const TOP: u64, const RANKS: u64, R: Wait, G: Gate>(
    rt: &R,
    system: &System<TOP, RANKS>,
    gate: &G,
    stop: &AtomicBool,
    job: Job,
) -> Option<Ending>
    ensures { LeavesEnding system.now job result }
{
    let Job { pid, script } = job;
    let (made, fault) = play(rt, system, gate, stop, pid, script.as_slice())?;
    Some(Ending {
        pid,
        script,
        made,
        fault,
    })
}

/// Makes acts of a process in order, and returns the number of acts made and the refusal that came
/// next, if one did.
fn play<const TOP: u64, const RANKS: u64, R: Wait, G: Gate>(
    rt: &R,
    system: &System<TOP, RANKS>,
    gate: &G,
    stop: &AtomicBool,
    pid: Pid,
    script: &[Act],
) -> Option<(usize, Option<ActFault>)>
    ensures { IfSome result (λ r. IsPlayed system.now (pid, script.now) r.0 r.1) }
{
    for (n, act) in script.iter().enumerate() {
        if stop.load(Ordering::SeqCst) {
            return None;
        }
        if let Err(fault) = system.act_of(rt, gate, pid, act, n as u64) {
            return Some((n, Some(fault)));
        }
    }
    Some((script.len(), None))
}
