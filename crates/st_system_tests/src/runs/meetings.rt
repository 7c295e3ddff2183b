//! Threads that meet at a gate: acts on different processes are made at the same time, and an act
//! holds all its locks while it is at the gate `before`, and none while it is at the gate `after`.

use super::{MOST, is_one_run};
use crate::helpers::same;
use st_core::{Act, Pid, Sequence};
use st_runtime::{ActFault, DriveFault, Gate, Record, Seat, System, drive};
use st_samples::{p30, p31};
use std::alloc::Global;
use std::process::Abort;
use std::sync::Wait;
use std::sync::atomic::{AtomicBool, AtomicU64, Ordering};
use std::test::Fail;
use std::thread;
use std::thread::Threads;
use std::time::{Clock, Duration};

/// The number of times that a thread looks for another's act, with a millisecond after each look.
const TURNS: u64 = 5_000;

/// The number of times that a thread looks for an act that should be waiting for a lock.
const WATCHED: u64 = 100;

/// Waits until the other thread has set `said`, and returns whether it did.
fn await_other<R: Clock>(clock: &R, said: &AtomicBool, turns: u64) -> bool {
    for _ in 0..turns {
        if said.load(Ordering::SeqCst) {
            return true;
        }
        thread::sleep(clock, Duration::from_millis(1));
    }
    said.load(Ordering::SeqCst)
}

/// Lets the acts of two processes wait until both hold their locks. `R` is a clock to pause by.
#[derive(Drop)]
struct Meeting<'a, R: Clock> {
    clock: &'a R,
    first: Pid,
    first_holds: AtomicBool,
    other_holds: AtomicBool,
    met: AtomicU64,
}

impl<R: Clock> Gate for Meeting<'_, R> {
    fn before(&self, pid: Pid, _n: u64) {
        let (mine, theirs) = if pid == self.first {
            (&self.first_holds, &self.other_holds)
        } else {
            (&self.other_holds, &self.first_holds)
        };
        mine.store(true, Ordering::SeqCst);
        if await_other(self.clock, theirs, TURNS) {
            self.met.fetch_add(1, Ordering::SeqCst);
        }
    }

    fn after(&self, _pid: Pid, _n: u64) {}
}

/// Drives two senders that meet, each with a receiver of its own, and returns how many of them
/// met, and the record.
fn drive_meetings<R: Threads + Wait + Sync + Abort + Clock>(
    rt: &R,
    alloc: Global,
) -> Result<(u64, Record), DriveFault> {
    let pids = [Pid::new(30), Pid::new(31), Pid::new(32), Pid::new(33)];
    let gate = Meeting {
        clock: rt,
        first: pids[0],
        first_holds: AtomicBool::new(false),
        other_holds: AtomicBool::new(false),
        met: AtomicU64::new(0),
    };
    let mut scripts = Vec::new(alloc);
    for acts in [
        Some(Act::Send(pids[0], pids[1], 1)),
        None,
        Some(Act::Send(pids[2], pids[3], 2)),
        None,
    ] {
        let mut script = Sequence::new(alloc);
        if let Some(act) = acts {
            let Ok(()) = script.push(act) else {
                return Err(DriveFault::Memory);
            };
        }
        let Ok(()) = scripts.push(script) else {
            return Err(DriveFault::Memory);
        };
    }
    assert_eq!(rt; scripts.len(), pids.len());
    let record = drive::<MOST, MOST, R, _>(rt, alloc, &pids, scripts, &gate)?;
    Ok((gate.met.load(Ordering::SeqCst), record))
}

// With one lock for all processes, or one thread for all scripts, the second act wouldn't get its
// locks while the first holds its own.
#[test]
fn two_senders_at_once(rt: HostRuntime) -> Result<(), Fail> {
    let (met, record) = drive_meetings(&rt, rt.alloc())?;
    same(&rt, &met, &2);
    same(&rt, &record.acts.len(), &2);
    assert!(rt; is_one_run(rt.alloc(), &record)?);
    Ok(())
}

/// Holds the act of one process at the gate while another thread asks for a lock that it holds, and
/// lets that one in only as it leaves.
#[derive(Drop)]
struct Turnstile<'a, R: Clock> {
    clock: &'a R,
    holder: Pid,
    /// The holder's act is at the gate.
    holds: AtomicBool,
    /// The other act came to the gate while the holder's was there.
    pressed_in: AtomicBool,
    /// The other act has come to the gate.
    came: AtomicBool,
    /// The other act came to the gate before the holder's call returned.
    let_in: AtomicBool,
}

impl<R: Clock> Gate for Turnstile<'_, R> {
    fn before(&self, pid: Pid, _n: u64) {
        if pid == self.holder {
            self.holds.store(true, Ordering::SeqCst);
            let pressed = await_other(self.clock, &self.came, WATCHED);
            self.pressed_in.store(pressed, Ordering::SeqCst);
        } else {
            self.came.store(true, Ordering::SeqCst);
        }
    }

    fn after(&self, pid: Pid, _n: u64) {
        if pid == self.holder {
            let came = await_other(self.clock, &self.came, TURNS);
            self.let_in.store(came, Ordering::SeqCst);
        }
    }
}

/// Returns whether the other's act came to the gate while the holder's act was at `before`, and
/// whether it had come by the time that the holder's act left `after`.
fn came_in<R: Threads + Wait + Sync + Abort + Clock>(
    rt: &R,
    system: &System<99, 99>,
    holder: &mut Seat,
    other: &mut Seat,
    held: &Act,
    asked: &Act,
) -> (bool, bool) {
    let gate = Turnstile {
        clock: rt,
        holder: p30(),
        holds: AtomicBool::new(false),
        pressed_in: AtomicBool::new(false),
        came: AtomicBool::new(false),
        let_in: AtomicBool::new(false),
    };
    let (first, second) = thread::join(
        rt,
        || system.act(rt, &gate, holder, held),
        || -> Result<_, ActFault> {
            // The other asks once the holder's act is at the gate.
            let _at_gate = await_other(rt, &gate.holds, TURNS);
            system.act(rt, &gate, other, asked)
        },
    );
    assert!(rt; first.is_ok());
    assert!(rt; second.is_ok());
    (
        gate.pressed_in.load(Ordering::SeqCst),
        gate.let_in.load(Ordering::SeqCst),
    )
}

// Each kind of act holds each of its locks from before the gate's `before` until before its
// `after`.
#[test]
fn the_gate_is_told_once_all_locks_are_held_and_once_they_are_given_back(
    rt: HostRuntime,
) -> Result<(), Fail> {
    let (system, seats) = System::<99, 99>::open(rt.alloc(), &[p30(), p31()])?;
    let mut seats = seats.into_iter();
    let (Some(mut holder), Some(mut other)) = (seats.next(), seats.next()) else {
        panic!(rt; "no seats");
    };
    let cases = [
        (Act::Look(p30()), Act::Send(p31(), p30(), 1)),
        (Act::Send(p30(), p30(), 1), Act::Send(p31(), p30(), 1)),
        (Act::Send(p30(), p31(), 1), Act::Look(p31())),
        (Act::Send(p30(), p31(), 1), Act::Send(p31(), p31(), 1)),
        (Act::Reset(p30()), Act::Look(p31())),
        (Act::Tracer(p30(), true), Act::Send(p31(), p31(), 1)),
        (Act::Send(p30(), p31(), 1), Act::Send(p31(), p30(), 1)),
    ];
    for (held, asked) in &cases {
        let came = came_in(&rt, &system, &mut holder, &mut other, held, asked);
        assert!(rt;
            came == (false, true),
            "{asked:?} beside {held:?}: {came:?}"
        );
    }
    Ok(())
}
