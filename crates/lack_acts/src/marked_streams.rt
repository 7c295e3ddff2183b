//! Marked streams: all events of each process, and which of them are told; and drafts of them.

ghost use Rattle.std.specs.Prelude.{◌≡◌, ◌∷◌, ◌++◌, [], false, map, slice_get, IfOk, IfSome, OnOk};
ghost use Rattle.std.specs.Option.{option_map_or};
ghost use Rattle.st_core.specs.Run.{pids_of};
ghost use Rattle.lack_laws.specs.Needs.{marked_of};
ghost use Rattle.lack_needs.specs.Completions.{wholes_with};

use lack_needs::{is_marked, marks_at};
use st_core::{Draft, Event, Pid, Sequence, Streams};
use std::alloc::{AllocError, Global};

/// All events of each process, and which of them are told.
#[derive(Drop)]
pub(crate) struct MarkedStreams {
    /// All events, told or not.
    pub streams: Streams,
    /// The marks of each process, by its place; events past the end of the marks are untold.
    pub marks: Vec<Sequence<bool>>,
}

/// Returns whether the event at an index of the process is told; false if there is no event.
pub(crate) fn is_told(streams: &Streams, marks: &[Sequence<bool>], pid: Pid, index: u64) -> bool
    ensures { result ≡ option_map_or (λ m. m.told)
        (slice_get (marked_of (wholes_with streams.now marks.now) pid) index) false }
{
    let _pids = streams.pids();
    let Some(place) = streams.place_of(pid) else {
        return false;
    };
    index < streams.len(pid) && is_marked(marks_at(marks, place), index as usize)
}

pub(crate) fn pid_at(streams: &Streams, process: usize) -> Option<Pid>
    ensures { result ≡ slice_get (pids_of streams.now) process }
{
    streams.pids().get(process).copied()
}

/// An event, and whether it is told.
#[derive(Clone, Copy)]
pub(crate) struct MarkedEvent {
    pub event: Event,
    pub is_told: bool,
}

/// Marked streams under construction, to which processes are added by rising pid.
#[derive(Drop)]
pub(crate) struct MarkedDraft {
    draft: Draft,
    marks: Vec<Sequence<bool>>,
}

/// Adds a process that comes last, with its events.
fn add_events(draft: &mut Draft, pid: Pid, events: &[MarkedEvent]) -> Result<(), AllocError>
    ensures { OnOk result (draft.new
        ≡ draft.old ++ record { pid = pid; events = map (λ m. m.event) events.now } ∷ []) }
{
    let Ok(()) = draft.open(pid) else {
        return Err(AllocError);
    };
    for one in events {
        let Ok(()) = draft.add(pid, one.event) else {
            return Err(AllocError);
        };
    }
    Ok(())
}

fn told_marks(alloc: Global, events: &[MarkedEvent]) -> Result<Vec<bool>, AllocError>
    ensures { IfOk result (λ marks. marks.items ≡ map (λ m. m.is_told) events.now) }
{
    events.iter().map(|one| one.is_told).collect(alloc)
}

impl MarkedDraft {
    /// Returns a draft without processes.
    pub(crate) fn new(alloc: Global) -> MarkedDraft
        ensures streams { result.draft ≡ [] }
        ensures marks { result.marks.items ≡ [] }
    {
        MarkedDraft {
            draft: Draft::new(alloc),
            marks: Vec::new(alloc),
        }
    }

    /// Adds a process that comes last, with its events and their marks.
    pub(crate) fn add(
        &mut self,
        alloc: Global,
        pid: Pid,
        events: &[MarkedEvent],
    ) -> Result<(), AllocError>
        ensures streams { OnOk result (self.new.draft
            ≡ self.old.draft ++ record { pid = pid; events = map (λ m. m.event) events.now } ∷ []) }
        ensures marks { OnOk result (self.new.marks.items
            ≡ self.old.marks.items ++ map (λ m. m.is_told) events.now ∷ []) }
    {
        add_events(&mut self.draft, pid, events)?;
        let marks = told_marks(alloc, events)?;
        self.marks.push(Sequence::from_vec(marks))?;
        Ok(())
    }

    /// Returns the streams with their marks; `None` if an event names a pid that isn't listed.
    pub(crate) fn close(self) -> Option<MarkedStreams>
        ensures { IfSome result (λ closed. wholes_with closed.streams closed.marks.items
            ≡ wholes_with self.draft self.marks.items) }
    {
        let MarkedDraft { draft, marks } = self;
        match draft.close() {
            Err(_) => None,
            Ok(streams) => Some(MarkedStreams { streams, marks }),
        }
    }
}
