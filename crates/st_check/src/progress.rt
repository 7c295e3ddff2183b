//! The state of a check: the world after the acts so far, and their comparison with the streams.

ghost use Rattle.std.specs.Prelude.{◌≡◌, ◌<◌, ◌+◌, [], length, take, IfOk, IfErr, List, OnOk};
ghost use Rattle.st_check.specs.Answers.{verdict_of};
ghost use Rattle.st_check.specs.Progress.{stop_of, IsEven, IsPassedBy, IsStop};
ghost use Rattle.st_core.specs.declared.types.Act.{Act as ActValue};
ghost use Rattle.st_core.specs.Verdict.{IsVerdict};

use crate::comparison::Comparison;
use crate::verdict::Verdict;
use st_core::{Act, Streams};
use st_world::{StepFault, World};
use std::alloc::{AllocError, Global};

/// The state of a check while acts pass.
#[derive(Drop)]
pub(crate) struct Progress<const TOP: u64> {
    world: World<TOP>,
    comparison: Comparison,
}

/// Why the next act doesn't pass.
pub(crate) enum Stop {
    /// Memory ran out.
    Memory,
    /// The act has no step.
    Stuck,
    /// The act reports an event that isn't its actor's next.
    Differs,
}

fn stop_of(fault: StepFault) -> Stop
    ensures { result ≡ stop_of fault }
{
    match fault {
        StepFault::Memory => Stop::Memory,
        StepFault::Unknown | StepFault::ClockFull => Stop::Stuck,
    }
}

impl<const TOP: u64> Progress<TOP> {
    /// Makes the state before the first act.
    pub(crate) fn new(alloc: Global, streams: &Streams) -> Result<Progress<TOP>, AllocError>
        ensures { IfOk result (λ p. IsPassedBy TOP streams.now [] p.world p.comparison) }
    {
        let Ok(world) = World::new(alloc, streams.pids()) else {
            return Err(AllocError);
        };
        let comparison = Comparison::new(alloc, streams)?;
        Ok(Progress { world, comparison })
    }

    /// Takes the act of this number if it passes.
    #[inline]
    pub(crate) fn advance(
        &mut self,
        streams: &Streams,
        acts: &[Act],
        number: usize,
    ) -> Result<(), Stop>
        requires within { number < length acts.now }
        requires passed { IsPassedBy TOP streams.now (take number acts.now)
            self.old.world self.old.comparison }
        ensures passed { OnOk result (IsPassedBy TOP streams.now (take (number + 1) acts.now)
            self.new.world self.new.comparison) }
        ensures stop { IfErr result (IsStop TOP streams.now (take (number + 1) acts.now)) }
    {
        let act = &acts[number];
        let outcome = match self.world.step(act) {
            Ok(outcome) => outcome,
            Err(fault) => return Err(stop_of(fault)),
        };
        let compared = self
            .comparison
            .advance(streams, number as u64, act, &outcome);
        let Ok(passes) = compared else {
            return Err(Stop::Memory);
        };
        if !passes {
            return Err(Stop::Differs);
        }
        Ok(())
    }

    pub(crate) fn into_verdict(self, streams: &Streams) -> Verdict
        requires { IsEven streams.now self.comparison }
        ensures { (acts : List ActValue) →
            IsPassedBy TOP streams.now acts self.entry.world self.entry.comparison →
            IsVerdict TOP streams.now acts (verdict_of result) }
    {
        let Progress {
            world: _,
            comparison,
        } = self;
        comparison.into_verdict(streams)
    }
}
