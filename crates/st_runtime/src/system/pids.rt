//! The places of pids in a list that rises.

ghost use Rattle.std.specs.Prelude.{◌≡◌, ◌≤◌, length, is_some, nat_lt, slice_get, Some, IfSome};
ghost use Rattle.st_core.specs.Streams.{is_among};
ghost use Rattle.st_core.specs.Pid.{node_of, IsRising};

use st_core::{Guesses, Pid};
use std::alloc::{AllocError, Global};

/// Makes guesses at the places of the pids.
pub fn guesses_of(alloc: Global, pids: &[Pid]) -> Result<Guesses, AllocError> {
    let mut guesses = Guesses::for_pids(alloc, pids.len())?;
    for (place, pid) in pids.iter().enumerate() {
        guesses.expect(pid.node(), pid.number(), place);
    }
    Ok(guesses)
}

/// Returns the place of the pid, if it is there: mostly the guess.
pub fn place_of(guesses: &Guesses, pids: &[Pid], pid: Pid) -> Option<usize>
    requires { IsRising pids.now }
    ensures variant { is_some result ≡ is_among pids.now pid }
    ensures some { IfSome result (λ i. slice_get pids.now i ≡ Some pid) }
{
    st_core::place_of(guesses, pids, pid)
}

/// Returns the place of the first process of the node, or the place at which it would be.
pub fn first_on(pids: &[Pid], node: u16) -> usize
    ensures { result ≤ length pids.now }
{
    pids.partition_point(
        |pid: &Pid| -> bool
            ensures { result ≡ nat_lt (node_of pid.now) node }
        { pid.node() < node },
    )
}
