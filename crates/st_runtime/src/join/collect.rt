//! Collecting the streams that logs tell of.

ghost use Rattle.std.specs.Prelude.{◌≡◌, ◌<◌, List, true, [], ◌∷◌, ◌++◌, length, IfOk, OnOk};
ghost use Rattle.std.specs.List.{AllByRecursion};
ghost use Rattle.std.specs.Option.{ForSome};
ghost use Rattle.st_core.specs.Run.{Stream};
ghost use Rattle.st_core.specs.Streams.{ComesLast, IsStreams, is_own, lists, with_report};
ghost use Rattle.st_runtime.specs.Joined.{reports_of, streams_of};
ghost use Rattle.st_runtime.specs.Joining.{report_at};
ghost use Rattle.st_log.specs.Entries.{entry_at};

use crate::pcb::Pcb;
use st_core::{AddFault, Draft, OpenFault, Pid, Streams};
use st_log::Log;
use std::alloc::{AllocError, Global};

/// Returns the streams of the processes' own reports.
pub fn streams_of<const TOP: u64, const RANKS: u64>(
    alloc: Global,
    processes: &[Pcb<TOP, RANKS>],
) -> Result<Streams, AllocError>
    requires { IsStreams (streams_of processes.now) }
    ensures { IfOk result (λ s. s ≡ streams_of processes.now) }
{
    let mut draft = Draft::new(alloc);
    for process in processes {
        add_stream(&mut draft, process.pid(), process.log())?;
    }
    let Ok(streams) = draft.close() else {
        unreachable!()
    };
    Ok(streams)
}

/// Opens the process's stream and fills it.
fn add_stream(draft: &mut Draft, pid: Pid, log: &Log) -> Result<(), AllocError>
    requires last { ComesLast draft.old pid }
    requires own { AllByRecursion (λ e. is_own pid e ≡ true) (reports_of pid log.now.entries) }
    ensures { OnOk result (draft.new
        ≡ draft.old ++ record { pid = pid; events = reports_of pid log.now.entries } ∷ []) }
{
    match draft.open(pid) {
        Ok(()) => fill(draft, pid, log),
        Err(OpenFault::Memory) => Err(AllocError),
        Err(OpenFault::NotRising) => unreachable!(),
    }
}

/// Adds the process's own reports to its stream, which is the last one.
fn fill(draft: &mut Draft, pid: Pid, log: &Log) -> Result<(), AllocError>
    requires listed { lists draft.old pid ≡ true }
    requires own { AllByRecursion (λ e. is_own pid e ≡ true) (reports_of pid log.now.entries) }
    ensures { OnOk result ((xs : List Stream)
        → ComesLast xs pid → draft.old ≡ xs ++ record { pid = pid; events = [] } ∷ []
        → draft.new ≡ xs ++ record { pid = pid; events = reports_of pid log.now.entries } ∷ []) }
{
    for place in 0..log.len() {
        add_entry(draft, pid, log, place)?;
    }
    Ok(())
}

/// Adds the report of the entry at `place`, if the entry is the process's own and has one.
fn add_entry(draft: &mut Draft, pid: Pid, log: &Log, place: usize) -> Result<(), AllocError>
    requires place { place < length log.now.entries }
    requires listed { lists draft.old pid ≡ true }
    requires own { ForSome (report_at pid (entry_at log.now.entries place))
        (λ e. is_own pid e ≡ true) }
    ensures { OnOk result
        (draft.new ≡ with_report draft.old pid (report_at pid (entry_at log.now.entries place))) }
{
    let Some(event) = log.report_at(place) else {
        return Ok(());
    };
    if log.actor_at(place) != pid {
        return Ok(());
    }
    match draft.add(pid, event) {
        Ok(()) => Ok(()),
        Err(AddFault::Memory) => Err(AllocError),
        Err(AddFault::Unknown | AddFault::Foreign) => unreachable!(),
    }
}
