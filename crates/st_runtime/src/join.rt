//! Joining pieces to the one run that they tell of.

ghost use Rattle.std.specs.Prelude.{◌≡◌, length, map, vec_len, All, IfOk, IfErr, IfSome, OnOk};
ghost use Rattle.st_core.specs.Pid.{IsRising};
ghost use Rattle.st_core.specs.Streams.{IsStreams};
ghost use Rattle.st_runtime.specs.Joined.{IsJoined, streams_of};
ghost use Rattle.st_runtime.specs.Joining.{referred, IsLogged, IsScripted, IsThere};
ghost use Rattle.st_runtime.specs.Pcb.{IsFromLog};
ghost use Rattle.st_runtime.specs.Pieces.{pids_in, IsFit, IsJoinFault};
ghost use Rattle.st_runtime.specs.Walk.{IsWalk};

pub mod collect;
pub mod reading;
pub mod record;
pub mod scripts;
pub mod seating;
pub mod turns;
pub mod walk;
pub mod whole;

use crate::fault::JoinFault;
use crate::join::collect::streams_of;
use crate::join::reading::{acts_of, replies_of};
use crate::join::record::Record;
use crate::join::scripts::check_scripts;
use crate::join::seating::first_unseated;
use crate::join::turns::turns_of;
use crate::join::walk::{Reference, pids_of, walk};
use crate::join::whole::first_missing;
use crate::pcb::Pcb;
use crate::system::pieces::Pieces;
use st_core::{Act, Reply, Sequence, Streams};
use std::alloc::{AllocError, Global};
use std::thread::{Threads, join};

/// Returns the record of the run that the threads made, exactly if the pieces fit: each entry is
/// in the log of each process that its act touches, and each seat's calls are those of its
/// process's log. The acts aren't replayed: that they are a run of the machine follows from what
/// the locks kept.
///
/// Fails with `Missing`, else with `SeatDiffers`, else with `Memory`.
pub fn join_pieces<const TOP: u64, const RANKS: u64>(
    alloc: Global,
    pieces: &Pieces<TOP, RANKS>,
) -> Result<Record, JoinFault>
    ensures ok { IfOk result (IsJoined TOP pieces.now) }
    ensures err { IfErr result (IsJoinFault pieces.now) }
{
    let processes = pieces.processes.as_slice();
    let Ok(Some(entries)) = entries_of(alloc, processes) else {
        check_fit(pieces)?;
        return Err(JoinFault::Memory);
    };
    if let Some(pid) = first_unseated(processes, pieces.seats.as_slice()) {
        return Err(JoinFault::SeatDiffers(pid));
    }
    Ok(run_of_logs(alloc, processes, entries.as_slice())?)
}

/// Joins the logs that driven scripts left. Releases the scripts before streams and replies are
/// read out, by a thread each.
pub(crate) fn join_driven<const TOP: u64, const RANKS: u64, R: Threads + Sync>(
    rt: &R,
    alloc: Global,
    processes: Vec<Pcb<TOP, RANKS>>,
    scripts: Vec<Sequence<Act>>,
) -> Result<Record, JoinFault>
    requires rising { IsRising (pids_in processes.items) }
    requires each { vec_len scripts ≡ vec_len processes }
    ensures { IfOk result (IsScripted TOP RANKS processes.entry.items scripts.items) }
{
    let processes = processes.as_slice();
    let Some(entries) = entries_of(alloc, processes)? else {
        return Err(first_fault(processes));
    };
    let acts = acts_of(alloc, entries.as_slice())?;
    let pids = pids_of(alloc, processes)?;
    check_scripts(alloc, pids.as_slice(), acts.as_slice(), scripts.as_slice())?;
    drop(scripts);
    Ok(run_by_threads(rt, alloc, processes, entries.as_slice(), acts)?)
}

/// Returns the entries of all logs, each once and by rank and then actor, if one walk leads
/// through all logs.
fn entries_of<const TOP: u64, const RANKS: u64>(
    alloc: Global,
    processes: &[Pcb<TOP, RANKS>],
) -> Result<Option<Vec<Reference<'_>>>, AllocError>
    requires { IsRising (pids_in processes.now) }
    ensures walk { IfOk result (λ o. IfSome o (λ v. IsWalk processes.now (map referred v.items))) }
    ensures there { IfOk result (λ o. IfSome o (λ v. All IsThere v.items)) }
    ensures kept { OnOk result (All (λ x. IsFromLog TOP RANKS x.process x.log) processes.now) }
{
    let turns = turns_of(alloc, processes)?;
    walk(alloc, processes, turns.as_slice())
}

/// Returns the reason why the logs of driven scripts don't fit. If no entry is missing, there were
/// more acts than turns can tell (`join::turns`), and it is `Memory`.
fn first_fault<const TOP: u64, const RANKS: u64>(processes: &[Pcb<TOP, RANKS>]) -> JoinFault
    requires { IsRising (pids_in processes.now) }
{
    match first_missing(processes) {
        Some((pid, place)) => JoinFault::Missing(pid, place as u64),
        None => JoinFault::Memory,
    }
}

/// Fails if the pieces don't fit.
fn check_fit<const TOP: u64, const RANKS: u64>(pieces: &Pieces<TOP, RANKS>) -> Result<(), JoinFault>
    ensures ok { OnOk result (IsFit pieces.now) }
    ensures err { IfErr result (IsJoinFault pieces.now) }
{
    let processes = pieces.processes.as_slice();
    if let Some((pid, place)) = first_missing(processes) {
        return Err(JoinFault::Missing(pid, place as u64));
    }
    if let Some(pid) = first_unseated(processes, pieces.seats.as_slice()) {
        return Err(JoinFault::SeatDiffers(pid));
    }
    Ok(())
}

/// Returns the record of whole logs, given their merged entries.
fn run_of_logs<const TOP: u64, const RANKS: u64>(
    alloc: Global,
    processes: &[Pcb<TOP, RANKS>],
    entries: &[Reference<'_>],
) -> Result<Record, AllocError>
    requires rising { IsRising (pids_in processes.now) }
    requires walk { IsWalk processes.now (map referred entries.now) }
    requires there { All IsThere entries.now }
    requires kept { All (λ x. IsFromLog TOP RANKS x.process x.log) processes.now }
    ensures { IfOk result (IsLogged TOP processes.now) }
{
    let acts = acts_of(alloc, entries)?;
    let replies = replies_of(alloc, entries)?;
    let streams = streams_of(alloc, processes)?;
    Ok(Record {
        streams,
        acts: Sequence::from_vec(acts),
        replies: Sequence::from_vec(replies),
    })
}

/// Returns the record of whole logs, given their merged entries and the acts. Streams and replies
/// are read out by a thread each.
fn run_by_threads<const TOP: u64, const RANKS: u64, R: Threads + Sync>(
    rt: &R,
    alloc: Global,
    processes: &[Pcb<TOP, RANKS>],
    entries: &[Reference<'_>],
    acts: Vec<Act>,
) -> Result<Record, AllocError>
    requires rising { IsRising (pids_in processes.now) }
    requires walk { IsWalk processes.now (map referred entries.now) }
    requires there { All IsThere entries.now }
    requires kept { All (λ x. IsFromLog TOP RANKS x.process x.log) processes.now }
    requires acts { acts.items ≡ map (λ r. (referred r).act) entries.now }
    ensures logged { IfOk result (IsLogged TOP processes.now) }
    ensures acts { IfOk result (λ r. r.acts ≡ acts.items) }
{
    let (streams, replies) = join(
        rt,
        || -> Result<Streams, AllocError>
            requires { IsStreams (streams_of processes.now) }
            ensures { IfOk result (λ s. s ≡ streams_of processes.entry.now) }
        { streams_of(alloc, processes) },
        || -> Result<Vec<Reply>, AllocError>
            requires { All IsThere entries.now }
            ensures { IfOk result (λ v. v.items ≡ map (λ r. (referred r).reply) entries.entry.now) }
        { replies_of(alloc, entries) },
    );
    let replies = replies?;
    Ok(Record {
        streams: streams?,
        acts: Sequence::from_vec(acts),
        replies: Sequence::from_vec(replies),
    })
}
