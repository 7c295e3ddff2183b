//! Streams with further processes that report nothing.

ghost use Rattle.std.specs.Prelude.{◌≡◌, ◌∷◌, ◌++◌, [], false, not, true, IfOk, OnOk};
ghost use Rattle.std.specs.List.{AllByRecursion};
ghost use Rattle.st_core.specs.Pid.{IsRising};
ghost use Rattle.st_core.specs.Run.{pids_of};
ghost use Rattle.st_core.specs.Streams.{is_own, lists, ComesLast};
ghost use Rattle.lack_laws.specs.Silent.{with_silent};

use crate::ranks::{add_own, close_draft, open_last};
use st_core::{Draft, Event, Pid, Streams};
use std::alloc::{AllocError, Global};

/// Returns whether the streams don't list the process.
pub fn is_unlisted(streams: &Streams, pid: Pid) -> bool
    ensures { result ≡ not (lists streams.now pid) }
{
    let _pids = streams.pids();
    match streams.place_of(pid) {
        None => true,
        Some(_) => false,
    }
}

/// Returns the pids of the streams and the others, rising. It fails if memory runs out.
pub fn pids_with(alloc: Global, streams: &Streams, others: &[Pid]) -> Result<Vec<Pid>, AllocError>
    requires apart { AllByRecursion (λ q. lists streams.now q ≡ false) others.now }
    requires rising { IsRising others.now }
    ensures { IfOk result (λ pids. pids.items ≡ pids_of (with_silent streams.now others.now)) }
{
    let mut pids = Vec::from_slice(alloc, streams.pids())?;
    pids.extend_from_slice(others)?;
    pids.sort()?;
    Ok(pids)
}

/// Adds a process that comes last, and its events.
fn add_process(draft: &mut Draft, pid: Pid, events: &[Event]) -> Result<(), AllocError>
    requires last { ComesLast draft.old pid }
    requires own { AllByRecursion (λ e. is_own pid e ≡ true) events.now }
    ensures { OnOk result (draft.new
        ≡ draft.old ++ record { pid = pid; events = events.now } ∷ []) }
{
    open_last(draft, pid)?;
    draft.reserve(pid, events.len())?;
    for event in events {
        add_own(draft, pid, *event)?;
    }
    Ok(())
}

/// Returns the streams with the other processes, which have no events. It copies all events, and
/// fails if memory runs out.
pub fn with_silent(alloc: Global, streams: &Streams, others: &[Pid]) -> Result<Streams, AllocError>
    requires apart { AllByRecursion (λ q. lists streams.now q ≡ false) others.now }
    requires rising { IsRising others.now }
    ensures { IfOk result (λ more. more ≡ with_silent streams.now others.now) }
{
    let _pids = streams.pids();
    let pids = pids_with(alloc, streams, others)?;
    let mut draft = Draft::new(alloc);
    for &pid in &pids {
        add_process(&mut draft, pid, streams.events(pid))?;
    }
    Ok(close_draft(draft))
}
