//! Streams with small counts: each count is replaced by its rank among 0 and all counts of the
//! streams.

ghost use Rattle.std.specs.Prelude.{◌≡◌, ◌∷◌, ◌++◌, [], nat_lt, true, IfOk, None, OnOk};
ghost use Rattle.std.specs.List.{AllByRecursion};
ghost use Rattle.std.specs.List.Sorted.{IsNonDecreasing};
ghost use Rattle.st_core.specs.Streams.{added, is_own, lists, unlisted, ComesLast};
ghost use Rattle.lack_laws.specs.Renumbering.{counts_of, event_with, rank, renumbered_streams};
ghost use Rattle.lack_needs.specs.Counts.{all_counts, counts_in, ranked_stream};

use st_core::{AddFault, Draft, Event, OpenFault, Pid, Serial, Streams};
use std::alloc::{AllocError, Global};

fn note_counts(counts: &mut Vec<u64>, events: &[Event]) -> Result<(), AllocError>
    ensures { OnOk result (counts.new.items ≡ counts.old.items ++ counts_in events.now) }
{
    for event in events {
        counts.push(event.serial.prev)?;
        counts.push(event.serial.this)?;
    }
    Ok(())
}

fn all_counts(alloc: Global, streams: &Streams) -> Result<Vec<u64>, AllocError>
    ensures { IfOk result (λ counts. counts.items ≡ 0 ∷ all_counts streams.now) }
{
    let mut counts = Vec::new(alloc);
    counts.push(0)?;
    for &pid in streams.pids() {
        note_counts(&mut counts, streams.events(pid))?;
    }
    Ok(counts)
}

/// Returns 0 and all counts of the streams, prevs too, each once, rising. It sorts them, which
/// takes nearly linear time. It fails if memory runs out.
pub fn counts_of(alloc: Global, streams: &Streams) -> Result<Vec<u64>, AllocError>
    ensures is { IfOk result (λ counts. counts.items ≡ counts_of streams.now) }
    ensures rises { IfOk result (λ counts. IsNonDecreasing counts.items) }
{
    let mut counts = all_counts(alloc, streams)?;
    counts.sort_unstable();
    counts.dedup();
    Ok(counts)
}

/// Returns how many of the counts are less.
fn rank(counts: &[u64], count: u64) -> u64
    requires { IsNonDecreasing counts.now }
    ensures { result ≡ rank counts.now count }
{
    let less = |other: &u64| -> bool
        ensures { result ≡ nat_lt other.now count }
    { *other < count };
    counts.partition_point(less) as u64
}

/// Returns the event with the ranks of its counts.
fn renumbered_event(counts: &[u64], event: &Event) -> Event
    requires { IsNonDecreasing counts.now }
    ensures { result ≡ event_with (rank counts.now) event.now }
{
    Event {
        serial: Serial {
            prev: rank(counts, event.serial.prev),
            this: rank(counts, event.serial.this),
        },
        ..*event
    }
}

/// Lists a process that comes last.
pub(crate) fn open_last(draft: &mut Draft, pid: Pid) -> Result<(), AllocError>
    requires { ComesLast draft.old pid }
    ensures { OnOk result (draft.new ≡ draft.old ++ ranked_stream [] pid [] ∷ []) }
{
    match draft.open(pid) {
        Ok(()) => Ok(()),
        Err(OpenFault::Memory) => Err(AllocError),
        Err(OpenFault::NotRising) => unreachable!(),
    }
}

pub(crate) fn add_own(draft: &mut Draft, pid: Pid, event: Event) -> Result<(), AllocError>
    requires listed { lists draft.old pid ≡ true }
    requires own { is_own pid event ≡ true }
    ensures { OnOk result (draft.new ≡ added draft.old pid event) }
{
    match draft.add(pid, event) {
        Ok(()) => Ok(()),
        Err(AddFault::Memory) => Err(AllocError),
        Err(AddFault::Unknown) => unreachable!(),
        Err(AddFault::Foreign) => unreachable!(),
    }
}

/// Adds a process that comes last, and its events with the ranks of their counts.
fn add_renumbered(
    draft: &mut Draft,
    counts: &[u64],
    pid: Pid,
    events: &[Event],
) -> Result<(), AllocError>
    requires rises { IsNonDecreasing counts.now }
    requires last { ComesLast draft.old pid }
    requires own { AllByRecursion (λ e. is_own pid e ≡ true) events.now }
    ensures { OnOk result (draft.new ≡ draft.old ++ ranked_stream counts.now pid events.now ∷ []) }
{
    open_last(draft, pid)?;
    for event in events {
        add_own(draft, pid, renumbered_event(counts, event))?;
    }
    Ok(())
}

/// Closes a draft in which every named pid is listed.
pub(crate) fn close_draft(draft: Draft) -> Streams
    requires { unlisted draft ≡ None }
    ensures { result ≡ draft }
{
    match draft.close() {
        Ok(streams) => streams,
        Err(_) => unreachable!(),
    }
}

/// Returns the streams with each count replaced by its rank among 0 and all their counts. If acts
/// without a reset show the result, such acts show the streams too, so a search for them doesn't
/// grow with the counts. It fails if memory runs out.
pub fn renumbered(alloc: Global, streams: &Streams) -> Result<Streams, AllocError>
    ensures { IfOk result (λ ranked. ranked ≡ renumbered_streams streams.now) }
{
    let counts = counts_of(alloc, streams)?;
    let mut draft = Draft::new(alloc);
    for &pid in streams.pids() {
        add_renumbered(&mut draft, &counts, pid, streams.events(pid))?;
    }
    Ok(close_draft(draft))
}
