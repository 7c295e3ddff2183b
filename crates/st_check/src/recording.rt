//! The replay of acts: the world, and what each process reported and each act replied so far.

ghost use Rattle.std.specs.Prelude.{◌≡◌, ◌<◌, ◌+◌, [], ◌∷◌, ◌++◌, length, take, None, true};
ghost use Rattle.std.specs.Prelude.{IfOk, IfErr, OnOk, MatchBool, if◌then◌else◌};
ghost use Rattle.std.specs.Option.{ForSome};
ghost use Rattle.st_check.specs.Answers.{reported_streams, AreReports, IsReplay, IsReplayFault};
ghost use Rattle.st_check.specs.Answers.{ReportsRise, RisesOnRun};
ghost use Rattle.st_check.specs.Recorded.{IsRunRecord, IsReplayedTo};
ghost use Rattle.st_core.specs.Pid.{IsRising};
ghost use Rattle.st_core.specs.Run.{pids_of, run};
ghost use Rattle.st_core.specs.Streams.{is_own, lists, with_report};

use crate::verdict::{ReplayFault, Replayed, Reports};
use st_core::{Act, AddFault, Draft, Event, OpenFault, Pid, Reply, Sequence};
use st_world::{NewFault, StepFault, World};
use std::alloc::{AllocError, Global};

/// The record of the acts so far, which have a run.
#[derive(Drop)]
struct Recording<const TOP: u64> {
    world: World<TOP>,
    /// The streams that the processes reported.
    streams: Draft,
    /// The reply of each act, if replies are kept.
    replies: Sequence<Reply>,
}

/// Runs the acts from zero clocks over these processes, and returns what each process reported and
/// what each act replied, or the first act that has no step.
pub fn replay<const TOP: u64>(
    alloc: Global,
    pids: &[Pid],
    acts: &[Act],
) -> Result<Replayed, ReplayFault>
    ensures replay { IfOk result (IsReplay TOP pids.now acts.now) }
    ensures rising { OnOk result (IsRising pids.now) }
    ensures fault { IfErr result (IsReplayFault pids.now) }

    // The laws of every run.
    ensures rises { IfOk result RisesOnRun }
{
    record_run::<TOP>(alloc, pids, acts, true)
}

/// Returns the reports alone: [`replay`] without the replies, which take 40 bytes an act.
pub fn reports<const TOP: u64>(
    alloc: Global,
    pids: &[Pid],
    acts: &[Act],
) -> Result<Reports, ReplayFault>
    ensures reports { IfOk result (AreReports TOP pids.now acts.now) }
    ensures rising { OnOk result (IsRising pids.now) }
    ensures fault { IfErr result (IsReplayFault pids.now) }

    // The laws of every run.
    ensures rises { IfOk result ReportsRise }
{
    match record_run::<TOP>(alloc, pids, acts, false)? {
        Replayed::Ran(streams, _) => Ok(Reports::Ran(streams)),
        Replayed::Stuck(number) => Ok(Reports::Stuck(number)),
    }
}

/// Runs the acts, and returns their reports, and their replies if `keeps_replies` is set.
fn record_run<const TOP: u64>(
    alloc: Global,
    pids: &[Pid],
    acts: &[Act],
    keeps_replies: bool,
) -> Result<Replayed, ReplayFault>
    ensures replay { IfOk result (IsRunRecord keeps_replies TOP pids.now acts.now) }
    ensures rising { OnOk result (IsRising pids.now) }
    ensures fault { IfErr result (IsReplayFault pids.now) }
    ensures rises { IfOk result RisesOnRun }
{
    let mut recording = Recording::<TOP>::new(alloc, pids, keeps_replies)?;
    for number in 0..acts.len() {
        let Ok(has_step) = recording.advance(acts, number, keeps_replies) else {
            return Err(ReplayFault::Memory);
        };
        if !has_step {
            return Ok(Replayed::Stuck(number as u64));
        }
    }
    let Recording {
        world: _,
        streams,
        replies,
    } = recording;
    match streams.close() {
        Ok(streams) => Ok(Replayed::Ran(streams, replies)),
        // The events of a run name only its processes.
        Err(_) => unreachable!(),
    }
}

impl<const TOP: u64> Recording<TOP> {
    /// Makes the record of no acts.
    fn new(alloc: Global, pids: &[Pid], keeps_replies: bool) -> Result<Recording<TOP>, ReplayFault>
        ensures recorded { IfOk result
            (λ r. IsReplayedTo TOP pids.now [] keeps_replies r.world r.streams r.replies) }
        ensures rising { OnOk result (IsRising pids.now) }
        ensures fault { IfErr result (IsReplayFault pids.now) }
    {
        let world = match World::new(alloc, pids) {
            Ok(world) => world,
            Err(NewFault::NotRising) => return Err(ReplayFault::NotRising),
            Err(NewFault::Memory) => return Err(ReplayFault::Memory),
        };
        let Ok(streams) = open_all(alloc, pids) else {
            return Err(ReplayFault::Memory);
        };
        Ok(Recording {
            world,
            streams,
            replies: Sequence::new(alloc),
        })
    }

    /// Takes the act of this number, and returns whether it has a step.
    fn advance(
        &mut self,
        acts: &[Act],
        number: usize,
        keeps_replies: bool,
    ) -> Result<bool, AllocError>
        requires within { number < length acts.now }
        requires recorded { IsReplayedTo TOP (pids_of self.old.streams) (take number acts.now)
            keeps_replies self.old.world self.old.streams self.old.replies }
        ensures { IfOk result (λ has_step. MatchBool has_step
            (IsReplayedTo TOP (pids_of self.old.streams) (take (number + 1) acts.now)
            keeps_replies self.new.world self.new.streams self.new.replies)
            (run TOP (pids_of self.old.streams) (take (number + 1) acts.now) ≡ None)) }
    {
        let act = &acts[number];
        let told = match self.world.step(act) {
            Ok(told) => told,
            Err(StepFault::Memory) => return Err(AllocError),
            Err(StepFault::Unknown) => return Ok(false),
            Err(StepFault::ClockFull) => return Ok(false),
        };
        record(&mut self.streams, act.actor(), told.report)?;
        keep(&mut self.replies, told.reply, keeps_replies)?;
        Ok(true)
    }
}

fn keep(replies: &mut Sequence<Reply>, reply: Reply, keeps_replies: bool) -> Result<(), AllocError>
    ensures { OnOk result
        (replies.new ≡ replies.old ++ (if keeps_replies then reply ∷ [] else [])) }
{
    if keeps_replies {
        replies.push(reply)?;
    }
    Ok(())
}

/// Adds the event that a listed process reported, if it reported one.
fn record(streams: &mut Draft, pid: Pid, report: Option<Event>) -> Result<(), AllocError>
    requires listed { lists streams.old pid ≡ true }
    requires own { ForSome report (λ e. is_own pid e ≡ true) }
    ensures { OnOk result (streams.new ≡ with_report streams.old pid report) }
{
    let Some(event) = report else {
        return Ok(());
    };
    match streams.add(pid, event) {
        Ok(()) => Ok(()),
        Err(AddFault::Memory) => Err(AllocError),
        Err(AddFault::Unknown) => unreachable!(),
        Err(AddFault::Foreign) => unreachable!(),
    }
}

/// Makes a draft that lists these processes, without events.
fn open_all(alloc: Global, pids: &[Pid]) -> Result<Draft, AllocError>
    requires { IsRising pids.now }
    ensures { IfOk result (λ draft. draft ≡ reported_streams pids.now [] []) }
{
    let mut draft = Draft::new(alloc);
    for pid in pids {
        match draft.open(*pid) {
            Ok(()) => {}
            Err(OpenFault::Memory) => return Err(AllocError),
            // Each pid is above those before it.
            Err(OpenFault::NotRising) => unreachable!(),
        }
    }
    Ok(draft)
}
