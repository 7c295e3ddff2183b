//! The judge of all streams together.

ghost use Rattle.std.specs.Prelude.{◌≡◌, ◌≢◌, List, [], IfOk};
ghost use Rattle.st_core.specs.Run.{pids_of};
ghost use Rattle.st_core.specs.Step.{Outcome};
ghost use Rattle.st_core.specs.declared.types.Pid.{Pid as PidValue};
ghost use Rattle.node_machine.specs.Node.{NodeAct};
ghost use Rattle.node_streams.specs.Messages.{unsent_among};
ghost use Rattle.node_streams.specs.Order.{HaveOrder};
ghost use Rattle.node_streams.specs.Runs.{AreStreamsOf};

use crate::order::cycle;
use crate::receives::unsent;
use crate::sends::all_taken_sends;
use st_core::{Pid, Streams};
use std::alloc::{AllocError, Global};

/// What the messages of all streams show. A place is a process and the index of one of its events.
#[derive(Drop)]
pub struct Judgement {
    /// The receives of messages of which no send is left, in the order of the text: before each,
    /// no fewer alike ones were received than were sent, as far as was reported.
    pub unsent: Vec<(Pid, u64)>,
    /// Empty if all events have an order in which each comes after those of its process before it,
    /// and a receive after its send. Else the next events of the processes that can't go on, all
    /// of them receives that wait for their sends.
    pub cycle: Vec<(Pid, u64)>,
}

/// Pairs each receive with its send, and looks for an order of all events. If a receive is unsent
/// or there is a cycle, a standard node has no run with these streams in which each token that
/// reached a listed process was sent by a listed one, which reported the send. Fails only if
/// memory runs out.
pub fn judge(alloc: Global, streams: &Streams) -> Result<Judgement, AllocError>
    ensures unsent { IfOk result (λ j. j.unsent.items
        ≡ unsent_among streams.now (pids_of streams.now)) }
    ensures ordered { IfOk result (λ j. j.cycle.items ≡ [] → HaveOrder streams.now) }
    ensures cyclic { IfOk result (λ j. j.cycle.items ≢ [] → ¬ (HaveOrder streams.now)) }
    ensures unsent_final { IfOk result (λ j. j.unsent.items ≢ [] → (pids : List PidValue)
        (acts : List NodeAct) (os : List Outcome) → ¬ (AreStreamsOf streams.now pids acts os)) }
    ensures cycle_final { IfOk result (λ j. j.cycle.items ≢ [] → (pids : List PidValue)
        (acts : List NodeAct) (os : List Outcome) → ¬ (AreStreamsOf streams.now pids acts os)) }
{
    let taken = all_taken_sends(alloc, streams)?;
    Ok(Judgement {
        unsent: unsent(alloc, streams, taken.as_slice())?,
        cycle: cycle(alloc, streams, taken.as_slice())?,
    })
}
