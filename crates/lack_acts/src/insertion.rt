//! Puts untold events into marked streams.

ghost use Rattle.std.specs.Prelude.{◌≡◌, ◌+◌, ◌-◌, vec_len, IfOk, IfSome, OnOk};
ghost use Rattle.st_plan.specs.Marks.{told_events};
ghost use Rattle.lack_needs.specs.Completions.{marked_with, wholes_with};
ghost use Rattle.lack_acts.specs.Told.{told_of, TellsAs};

use crate::marked_streams::{MarkedDraft, MarkedEvent, MarkedStreams};
use lack_needs::{is_marked, marks_at};
use st_core::{Event, Sequence, Streams};
use std::alloc::{AllocError, Global};

/// An untold event and its place.
#[derive(Clone, Copy)]
pub(crate) struct Insertion {
    /// The process, by its place in the streams.
    pub process: usize,
    /// The index of the event right before which the untold one goes.
    pub index: usize,
    /// Whether the untold event goes after those at its place that don't come last.
    pub comes_last: bool,
    pub event: Event,
}

impl Insertion {
    /// Returns the key by which insertions are sorted: those at one place by count.
    fn key(&self) -> (usize, usize, bool, u64)
        ensures { result ≡ (
          self.now.process,
          self.now.index,
          self.now.comes_last,
          self.now.event.serial.this,
        ) }
    {
        (
            self.process,
            self.index,
            self.comes_last,
            self.event.serial.this,
        )
    }
}

/// Adds the untold events from `first` on that go before the event at an index of the process.
/// Returns the place of the next one.
fn add_untold(
    whole: &mut Vec<MarkedEvent>,
    untold: &[Insertion],
    first: usize,
    process: usize,
    index: usize,
) -> Result<usize, AllocError>
    ensures told { OnOk result (told_of whole.new.items ≡ told_of whole.old.items) }
    ensures count { IfOk result (λ next.
        vec_len whole.new ≡ vec_len whole.old + (next - first)) }
{
    for place in first..untold.len() {
        let one = untold[place];
        if one.process != process || one.index != index {
            return Ok(place);
        }
        whole.push(MarkedEvent {
            event: one.event,
            is_told: false,
        })?;
    }
    Ok(untold.len())
}

/// Merges the events of a process with its untold ones, from `first` on. Returns them, and the
/// place of the first untold event of another process.
fn merged(
    alloc: Global,
    events: &[Event],
    marks: &[bool],
    untold: &[Insertion],
    first: usize,
    process: usize,
) -> Result<(Vec<MarkedEvent>, usize), AllocError>
    ensures { IfOk result (λ all. told_of all.0.items
        ≡ told_events (marked_with events.now marks.now)) }
{
    let mut whole = Vec::new(alloc);
    let mut next = first;
    for (index, event) in events.iter().enumerate() {
        next = add_untold(&mut whole, untold, next, process, index)?;
        whole.push(MarkedEvent {
            event: *event,
            is_told: is_marked(marks, index),
        })?;
    }
    next = add_untold(&mut whole, untold, next, process, events.len())?;
    Ok((whole, next))
}

/// Adds the untold events to the marked streams; `None` if a pid that one of them names isn't
/// listed.
pub(crate) fn with_insertions(
    alloc: Global,
    streams: &Streams,
    marks: &[Sequence<bool>],
    mut untold: Vec<Insertion>,
) -> Result<Option<MarkedStreams>, AllocError>
    ensures { IfOk result (λ some. IfSome some (TellsAs (wholes_with streams.now marks.now))) }
{
    untold.sort_by_key(|one| one.key())?;
    let mut draft = MarkedDraft::new(alloc);
    let mut next: usize = 0;
    for (process, &pid) in streams.pids().iter().enumerate() {
        let events = streams.events(pid);
        let own = marks_at(marks, process);
        let all = merged(alloc, events, own, untold.as_slice(), next, process)?;
        let whole = all.0.as_slice();
        draft.add(alloc, pid, whole)?;
        next = all.1;
    }
    Ok(draft.close())
}
