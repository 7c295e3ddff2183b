//! Rows of a new world, and the range of numbers of a node's processes.

ghost use Rattle.std.specs.Prelude.{◌≡◌, nat_le, nat_lt, replicate, IfOk};
ghost use Rattle.st_core.specs.Pid.{node_of, IsRising};
ghost use Rattle.st_core.specs.State.{zero_local};
ghost use Rattle.st_world.specs.Rows.{IsNodeRange};

use st_core::{Local, Pid};
use std::alloc::{AllocError, Global};

/// Returns `count` tracing states of new processes. Fails if memory runs out.
pub(crate) fn zeros<const TOP: u64>(
    alloc: Global,
    count: usize,
) -> Result<Vec<Local<TOP>>, AllocError>
    ensures { IfOk result (λ locals. locals.items ≡ replicate count zero_local) }
{
    let mut locals = Vec::new(alloc);
    for _ in 0..count {
        locals.push(Local::new())?;
    }
    Ok(locals)
}

/// Returns the first number of the node's processes, and the number after the last.
pub(crate) fn node_range(pids: &[Pid], node: u16) -> (usize, usize)
    requires { IsRising pids.now }
    ensures { IsNodeRange node pids.now result.0 result.1 }
{
    let start = pids.partition_point(
        |pid: &Pid| -> bool
            ensures { result ≡ nat_lt (node_of pid.now) node }
        { pid.node() < node },
    );
    let end = pids.partition_point(
        |pid: &Pid| -> bool
            ensures { result ≡ nat_le (node_of pid.now) node }
        { pid.node() <= node },
    );
    (start, end)
}
