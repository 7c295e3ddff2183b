//! The checker.

ghost use Rattle.std.specs.Prelude.{IfOk};
ghost use Rattle.st_check.specs.Answers.{verdict_of, FollowsAll, PairsAll, RisesOnYes};
ghost use Rattle.st_core.specs.Verdict.{IsVerdict};

use crate::progress::{Progress, Stop};
use crate::verdict::{CheckFault, Verdict};
use st_core::{Act, Streams};
use std::alloc::Global;

/// Judges whether the acts are a run from zero clocks in which each process reports exactly its
/// stream.
///
/// The time grows with the acts, the events and the walks in the queues. Fails only if there is no
/// memory for the tables, which have some rows for each process, for the message of a send or its
/// number, or for the pair of a reported receive. The index of a long queue takes memory too, but
/// the check goes on without an index if there is none.
pub fn check<const TOP: u64>(
    alloc: Global,
    streams: &Streams,
    acts: &[Act],
) -> Result<Verdict, CheckFault>
    ensures verdict { IfOk result (λ v. IsVerdict TOP streams.now acts.now (verdict_of v)) }

    // The laws of every run, for the run that a yes is about.
    ensures follows { IfOk result (λ v. FollowsAll TOP streams.now acts.now (verdict_of v)) }
    ensures paired { IfOk result (λ v. PairsAll TOP streams.now acts.now (verdict_of v)) }
    ensures rises { IfOk result (λ v. RisesOnYes streams.now (verdict_of v)) }
{
    let Ok(mut progress) = Progress::<TOP>::new(alloc, streams) else {
        return Err(CheckFault::Memory);
    };
    for number in 0..acts.len() {
        match progress.advance(streams, acts, number) {
            Ok(()) => {}
            Err(Stop::Memory) => return Err(CheckFault::Memory),
            Err(Stop::Stuck) => return Ok(Verdict::Stuck(number as u64)),
            Err(Stop::Differs) => return Ok(Verdict::Differs(number as u64)),
        }
    }
    Ok(progress.into_verdict(streams))
}
