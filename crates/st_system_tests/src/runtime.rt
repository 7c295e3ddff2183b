//! Calls of `st_runtime`: replies, refusals, and calls that run out of memory. A call that ran out
//! of memory is made again: if one request for memory fails in a run, the second result is right.

ghost use Rattle.std.specs.Prelude.{◌≡◌, [], IfOk};

mod acts;
mod drives;
mod joins;

use crate::helpers::same;
use st_core::{Act, Pid, Reply};
use st_runtime::{ActFault, Gate, Pieces, Seat, System, SystemFault};
use std::alloc::{AllocError, Global};
use std::process::Abort;
use std::sync::Wait;

/// Makes an empty list with room for `count` items, at the second try if memory runs out.
fn room_at_last<T>(alloc: Global, count: usize) -> Result<Vec<T>, AllocError>
    ensures { IfOk result (λ v. v.items ≡ []) }
{
    match Vec::with_capacity(alloc, count) {
        Ok(list) => Ok(list),
        Err(_) => Vec::with_capacity(alloc, count),
    }
}

/// Opens a system, at the second try if memory runs out.
fn open_at_last<const TOP: u64, const RANKS: u64>(
    alloc: Global,
    pids: &[Pid],
) -> Result<(System<TOP, RANKS>, Vec<Seat>), SystemFault> {
    match System::open(alloc, pids) {
        Err(SystemFault::Memory) => System::open(alloc, pids),
        answer => answer,
    }
}

/// Makes an act. If memory runs out, asserts that the seat kept no act, and makes the act again.
fn act_at_last<const TOP: u64, const RANKS: u64, R: Wait + Abort, G: Gate>(
    rt: &R,
    gate: &G,
    system: &System<TOP, RANKS>,
    seat: &mut Seat,
    act: &Act,
) -> Result<Reply, ActFault> {
    let made = seat.mine().len();
    match system.act(rt, gate, seat, act) {
        Err(ActFault::Memory) => {
            same(rt, &seat.mine().len(), &made);
            system.act(rt, gate, seat, act)
        }
        answer => answer,
    }
}

/// Gathers the pieces of a system, at the second try if the first fails.
fn gather_at_last<const TOP: u64, const RANKS: u64>(
    system: System<TOP, RANKS>,
    seats: Vec<Seat>,
) -> Option<Pieces<TOP, RANKS>> {
    match system.gather(seats) {
        Ok(pieces) => Some(pieces),
        Err((system, seats)) => system.gather(seats).ok(),
    }
}
