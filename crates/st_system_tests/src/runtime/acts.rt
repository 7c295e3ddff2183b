//! Worked acts in systems: replies, refusals, and what a gate is told.

use super::{act_at_last, gather_at_last, open_at_last, room_at_last};
use crate::helpers::{same, same_at};
use st_core::{Act, Component, Label, Pid, Reply, Serial, Want};
use st_runtime::{ActFault, Gate, OpenGate, Seat, System, WORKER_STACK};
use std::process::Abort;
use std::sync::Wait;
use std::sync::atomic::{AtomicU64, Ordering};
use std::test::Fail;
use std::thread;
use std::thread::Threads;

/// An act and what it returns.
type Played = (Act, Result<Reply, ActFault>);

/// Asserts that a seat kept, after its first acts, exactly the played acts that were accepted.
fn assert_made(rt: &impl Abort, seat: &Seat, first: usize, acts: &[Played]) {
    let mut place = first;
    for (act, expected) in acts {
        if let Ok(reply) = expected {
            same(rt, &seat.mine().get(place), &Some((*act, *reply)));
            place = place.saturating_add(1);
        }
    }
    same(rt, &seat.mine().len(), &place);
}

/// Makes the acts through a seat, and asserts what each returns and that the seat keeps exactly
/// the accepted ones.
fn play<const TOP: u64, const RANKS: u64, R: Wait + Abort, G: Gate>(
    rt: &R,
    gate: &G,
    system: &System<TOP, RANKS>,
    seat: &mut Seat,
    acts: &[Played],
) {
    let first = seat.mine().len();
    for (played, (act, expected)) in (1..).zip(acts) {
        same(rt, &act_at_last(rt, gate, system, seat, act), expected);
        assert_made(rt, seat, first, acts.get(..played).unwrap_or(acts));
    }
}

/// A gate that counts its calls of `before` and of `after`, and adds up the numbers of acts that
/// they pass.
#[derive(Drop)]
struct Counting {
    before: AtomicU64,
    after: AtomicU64,
    acts_before: AtomicU64,
    acts_after: AtomicU64,
}

impl Counting {
    fn new() -> Counting {
        Counting {
            before: AtomicU64::new(0),
            after: AtomicU64::new(0),
            acts_before: AtomicU64::new(0),
            acts_after: AtomicU64::new(0),
        }
    }
}

impl Gate for Counting {
    fn before(&self, _pid: Pid, n: u64) {
        self.before.fetch_add(1, Ordering::SeqCst);
        self.acts_before.fetch_add(n, Ordering::SeqCst);
    }

    fn after(&self, _pid: Pid, n: u64) {
        self.after.fetch_add(1, Ordering::SeqCst);
        self.acts_after.fetch_add(n, Ordering::SeqCst);
    }
}

/// The acts of a process whose clock goes to 3, among them some that are refused.
fn acts_with_refusals(me: Pid) -> [Played; 9] {
    let foreign = Act::Look(Pid::new(31));
    let unknown = Act::Send(me, Pid::new(99), 1);
    let print = Act::Print(me, 0);
    let started = Act::Set(me, Component::Label(Label(1)));
    [
        (foreign, Err(ActFault::NotYours)),
        (Act::Look(me), Ok(Reply::Current(None))),
        (unknown, Err(ActFault::Unknown)),
        (Act::Look(me), Ok(Reply::Current(None))),
        (started, Ok(Reply::Old(None))),
        (print, Ok(Reply::Done)),
        (print, Ok(Reply::Done)),
        (print, Ok(Reply::Done)),
        (print, Err(ActFault::ClockFull)),
    ]
}

// The gate is told of each act that holds its lock, even of an act that is refused then.
#[test]
fn a_gate_is_told_of_acts_under_their_lock(rt: HostRuntime) -> Result<(), Fail> {
    let me = Pid::new(30);
    let (system, seats) = open_at_last::<3, 9>(rt.alloc(), &[me])?;
    for mut seat in seats {
        let gate = Counting::new();
        play(&rt, &gate, &system, &mut seat, &acts_with_refusals(me));
        same(&rt, &gate.before.load(Ordering::SeqCst), &7);
        same(&rt, &gate.after.load(Ordering::SeqCst), &7);
        let told = 1 + 2 + 3 + 4 + 5 + 6;
        same(&rt, &gate.acts_before.load(Ordering::SeqCst), &told);
        same(&rt, &gate.acts_after.load(Ordering::SeqCst), &told);
    }
    Ok(())
}

// The gate is told how many acts the seat kept before the act, whatever locks the act takes.
#[test]
fn a_gate_is_told_how_many_acts_there_were_before(rt: HostRuntime) -> Result<(), Fail> {
    let me = Pid::new(30);
    let other = Pid::new(31);
    let (system, seats) = open_at_last::<9, 9>(rt.alloc(), &[me, other])?;
    let Some(mut seat) = seats.into_iter().next() else {
        panic!(rt; "no seats");
    };
    let acts = [
        (Act::Look(me), Ok(Reply::Current(None))),
        (Act::Send(me, other, 1), Ok(Reply::Done)),
        (Act::Send(me, other, 2), Ok(Reply::Done)),
        (Act::Reset(me), Ok(Reply::Done)),
        (Act::Tracer(me, true), Ok(Reply::Was(false))),
        (Act::Send(me, me, 3), Ok(Reply::Done)),
        (Act::Look(me), Ok(Reply::Current(None))),
    ];
    for (made, played) in (0..).zip(&acts) {
        let gate = Counting::new();
        play(&rt, &gate, &system, &mut seat, &[*played]);
        same_at(&rt, made, &gate.acts_before.load(Ordering::SeqCst), &made);
        same_at(&rt, made, &gate.acts_after.load(Ordering::SeqCst), &made);
    }
    Ok(())
}

// The gate is told once before and once after an act of a whole node, even if the act is refused.
#[test]
fn a_gate_is_told_of_acts_of_a_node_once(rt: HostRuntime) -> Result<(), Fail> {
    let me = Pid::new(30);
    let (system, seats) = open_at_last::<9, 3>(rt.alloc(), &[me, Pid::new(31)])?;
    let Some(mut seat) = seats.into_iter().next() else {
        panic!(rt; "no seats");
    };
    let acts = [
        (Act::Tracer(me, true), Ok(Reply::Was(false))),
        (Act::Reset(me), Ok(Reply::Done)),
        (Act::Reset(me), Ok(Reply::Done)),
        (Act::Reset(me), Err(ActFault::RankFull)),
        (Act::Tracer(me, false), Err(ActFault::RankFull)),
    ];
    for (told, played) in (1..).zip(&acts) {
        let gate = Counting::new();
        play(&rt, &gate, &system, &mut seat, &[*played]);
        same_at(&rt, told, &gate.before.load(Ordering::SeqCst), &1);
        same_at(&rt, told, &gate.after.load(Ordering::SeqCst), &1);
    }
    Ok(())
}

// A refused act leaves the seat's acts and the process as they were.
#[test]
fn refused_acts_change_nothing(rt: HostRuntime) -> Result<(), Fail> {
    let me = Pid::new(30);
    let (system, seats) = open_at_last::<3, 9>(rt.alloc(), &[me])?;
    for mut seat in seats {
        play(&rt, &OpenGate, &system, &mut seat, &acts_with_refusals(me));
        same(&rt, &seat.mine().len(), &6);
        let looked = act_at_last(&rt, &OpenGate, &system, &mut seat, &Act::Look(me));
        let Ok(Reply::Current(Some(token))) = looked else {
            panic!(rt; "no token");
        };
        same(&rt, &token.serial, &Serial { prev: 0, this: 3 });
    }
    Ok(())
}

// Three entries fill the ranks of a log, and a refused fourth act leaves them.
#[test]
fn a_full_rank_keeps_what_was_made(rt: HostRuntime) -> Result<(), Fail> {
    let me = Pid::new(30);
    let (system, seats) = open_at_last::<3, 3>(rt.alloc(), &[me])?;
    let Some(mut seat) = seats.into_iter().next() else {
        panic!(rt; "no seats");
    };
    let made = (Act::Look(me), Ok(Reply::Current(None)));
    let full = (Act::Look(me), Err(ActFault::RankFull));
    play(
        &rt,
        &OpenGate,
        &system,
        &mut seat,
        &[made, made, made, full],
    );
    same(&rt, &seat.mine().len(), &3);
    Ok(())
}

// A reset or a change of the tracer reaches each process of the actor's node, and no other.
#[test]
fn acts_of_a_node_leave_other_nodes(rt: HostRuntime) -> Result<(), Fail> {
    let here = Pid::on(1, 30);
    let beside = Pid::on(1, 31);
    let away = Pid::on(2, 31);
    let (system, seats) = open_at_last::<9, 9>(rt.alloc(), &[here, beside, away])?;
    for mut seat in seats {
        if seat.pid() == here {
            let acts = [
                (Act::Set(here, Component::Print(true)), Ok(Reply::Old(None))),
                (Act::Send(here, away, 5), Ok(Reply::Done)),
                (Act::Tracer(here, true), Ok(Reply::Was(false))),
                (Act::Reset(here), Ok(Reply::Done)),
                (Act::Look(here), Ok(Reply::Current(None))),
                (Act::Tracer(here, false), Ok(Reply::Was(true))),
            ];
            play(&rt, &OpenGate, &system, &mut seat, &acts);
        }
        if seat.pid() == beside {
            let reset = (Act::Reset(beside), Ok(Reply::Done));
            play(&rt, &OpenGate, &system, &mut seat, &[reset]);
        }
        if seat.pid() == away {
            let traced = (Act::Tracer(away, true), Ok(Reply::Was(false)));
            play(&rt, &OpenGate, &system, &mut seat, &[traced]);
        }
    }
    let pieces = gather_at_last(system, Vec::new(rt.alloc())).ok_or("not gathered")?;
    for process in pieces.into_processes() {
        let (entries, rank) = if process.pid() == here {
            (7, 7)
        } else if process.pid() == beside {
            (4, 7)
        } else {
            (2, 3)
        };
        same(&rt, &process.log().len(), &entries);
        same(&rt, &process.last_rank(), &rank);
    }
    Ok(())
}

/// The number of processes on the large node.
const MANY: u16 = 1_024;

/// Makes the act in a thread with a worker's stack; None if no thread could be started.
fn on_worker_stack<R: Threads + Wait + Sync + Abort>(
    rt: &R,
    system: &System<9, 9>,
    seat: &mut Seat,
    act: &Act,
) -> Option<Result<Reply, ActFault>> {
    thread::scope(thread::scope_env(), rt, |scope| {
        let thread = thread::Builder::new().stack_size(WORKER_STACK);
        match thread.spawn_scoped(scope, || act_at_last(rt, &OpenGate, system, seat, act)) {
            Ok(thread) => Some(thread.join(rt)),
            Err(_) => None,
        }
    })
}

// Each lock of a node takes a frame, and a worker's stack has room for the locks of 1,024
// processes.
#[test]
fn a_reset_of_a_large_node_fits_a_workers_stack(rt: HostRuntime) -> Result<(), Fail> {
    let mut pids = room_at_last(rt.alloc(), MANY as usize)?;
    for number in 0..MANY {
        pids.push(Pid::new(number))?;
    }
    let (system, seats) = open_at_last::<9, 9>(rt.alloc(), pids.as_slice())?;
    let Some(mut seat) = seats.into_iter().next() else {
        panic!(rt; "no seats");
    };
    let reset = Act::Reset(Pid::new(0));
    let answer = match on_worker_stack(&rt, &system, &mut seat, &reset) {
        None => on_worker_stack(&rt, &system, &mut seat, &reset),
        answer => answer,
    };
    same(&rt, &answer, &Some(Ok(Reply::Done)));
    Ok(())
}
