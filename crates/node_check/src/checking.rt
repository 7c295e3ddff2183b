//! The checker of acts against streams.

ghost use Rattle.std.specs.Prelude.{map, IfOk};
ghost use Rattle.node_check.specs.Verdict.{IsNodeVerdict, RefutesOnNo};

use crate::acts::ToNodeAct;
use crate::progress::{Progress, Stop};
use crate::verdict::{NodeCheckFault, NodeVerdict};
use st_core::Streams;
use std::alloc::Global;

/// Checks whether acts are a run of a standard node from zero clocks in which each process reports
/// exactly its stream.
///
/// Its time grows with the acts, the events and the walks in the queues, whatever resets and
/// tracer changes there are. It fails only if there is no memory for its tables, some rows a
/// process and 1 MB for the nodes, or for the message of a send. An index of a long queue takes
/// memory too, and is done without if there is none.
pub fn check_node<A: ToNodeAct>(
    alloc: Global,
    streams: &Streams,
    acts: &[A],
) -> Result<NodeVerdict, NodeCheckFault>
    ensures verdict { IfOk result (IsNodeVerdict streams.now (map A.on_node acts.now)) }
    ensures refutes { IfOk result (RefutesOnNo streams.now (map A.on_node acts.now)) }
{
    let Ok(mut progress) = Progress::new(alloc, streams) else {
        return Err(NodeCheckFault::Memory);
    };
    for number in 0..acts.len() {
        match progress.advance(streams, acts, number) {
            Ok(()) => {}
            Err(Stop::Memory) => return Err(NodeCheckFault::Memory),
            Err(Stop::Stuck) => return Ok(NodeVerdict::Stuck(number as u64)),
            Err(Stop::Differs) => return Ok(NodeVerdict::Differs(number as u64)),
        }
    }
    Ok(progress.verdict(streams))
}
