//! Joins of pieces, whichever request for memory fails. A clause says that pieces that don't fit
//! aren't joined.

use super::{act_at_last, gather_at_last, open_at_last, room_at_last};
use crate::helpers::same;
use st_core::{Act, Component, Pid, Reply};
use st_runtime::{ActFault, JoinFault, OpenGate, Pieces, Record, join_pieces};
use std::alloc::Global;
use std::test::Fail;

/// Joins the pieces, a second time if memory ran out.
fn join_at_last(alloc: Global, pieces: &Pieces<9, 9>) -> Result<Record, JoinFault> {
    match join_pieces(alloc, pieces) {
        Err(JoinFault::Memory) => join_pieces(alloc, pieces),
        answer => answer,
    }
}

// A call whose request for memory fails returns Memory and changes nothing: when it is made again
// it returns the right result. The test shows that only if it runs with an allocation that fails.
#[test]
fn joins_without_memory_leave_no_trace(rt: HostRuntime) -> Result<(), Fail> {
    let pids = [Pid::new(30), Pid::new(31), Pid::new(32)];
    let (system, seats) = open_at_last::<9, 9>(rt.alloc(), &pids)?;
    let mut used = room_at_last(rt.alloc(), pids.len())?;
    for mut seat in seats {
        let me = seat.pid();
        let acts = [
            (Act::Set(me, Component::Print(true)), Reply::Old(None)),
            (Act::Send(me, pids[1], 7), Reply::Done),
            (Act::Reset(me), Reply::Done),
        ];
        for (act, reply) in &acts {
            same(
                &rt,
                &act_at_last(&rt, &OpenGate, &system, &mut seat, act),
                &Ok(*reply),
            );
        }
        used.push(seat)?;
    }
    let pieces = gather_at_last(system, used).ok_or("not gathered")?;
    let record = join_at_last(rt.alloc(), &pieces)?;
    same(&rt, &record.acts.len(), &9);
    same(&rt, &record.streams.pids(), &pids.as_slice());
    Ok(())
}

// A reset of four processes that runs out of memory is in no log, and the processes can go on. The
// test shows that only if it runs with an allocation that fails.
#[test]
fn a_refused_reset_leaves_no_trace(rt: HostRuntime) -> Result<(), Fail> {
    let pids = [Pid::new(30), Pid::new(31), Pid::new(32), Pid::new(33)];
    let (system, seats) = open_at_last::<9, 9>(rt.alloc(), &pids)?;
    let mut used = room_at_last(rt.alloc(), pids.len())?;
    let mut made = 4;
    for mut seat in seats {
        let me = seat.pid();
        if me == pids[0] {
            match system.act(&rt, &OpenGate, &mut seat, &Act::Reset(me)) {
                Ok(reply) => {
                    same(&rt, &reply, &Reply::Done);
                    made = 5;
                }
                Err(fault) => {
                    same(&rt, &fault, &ActFault::Memory);
                    assert!(rt; seat.mine().is_empty());
                }
            }
        }
        let looked = act_at_last(&rt, &OpenGate, &system, &mut seat, &Act::Look(me));
        same(&rt, &looked, &Ok(Reply::Current(None)));
        used.push(seat)?;
    }
    let pieces = gather_at_last(system, used).ok_or("not gathered")?;
    let record = join_at_last(rt.alloc(), &pieces)?;
    same(&rt, &record.acts.len(), &made);
    Ok(())
}
