//! Completions of streams: all events of each process, and which of them the streams tell.

ghost use Rattle.std.specs.Prelude.{◌≡◌, length, option_map, slice_get, List, get_or, false, []};
ghost use Rattle.st_core.specs.declared.types.Event.{Event as EventValue};
ghost use Rattle.st_core.specs.Streams.{events_of};
ghost use Rattle.lack_laws.specs.Needs.{marked_of};
ghost use Rattle.lack_laws.specs.Silent.{with_silent};
ghost use Rattle.st_plan.specs.Marks.{all_streams, marks_of, told_streams};
ghost use Rattle.lack_needs.specs.Completions.{added_in, marked_with, wholes_with};

use st_core::{Pid, Sequence, Streams};
use st_plan::Tells;
use std::marker::Model;

/// All events of each process, whether the completed streams tell each of them, and the processes
/// that these streams don't list. It takes 1 byte an event more than the streams of all events.
#[derive(Debug, Drop)]
pub struct Completion {
    pub(crate) streams: Streams,
    /// The marks of each process, by its place; events past the end of its marks are untold.
    pub(crate) told: Vec<Sequence<bool>>,
    /// The processes that the streams don't list, by rising pid.
    pub(crate) unlisted: Vec<Pid>,
    /// The number of untold events.
    pub(crate) added: u64,
}

impl Model for Completion {
    ghost use Rattle.std.specs.Prelude.{◌≡◌};
    ghost use Rattle.lack_needs.specs.Completions.{added_in, wholes_with, Completed};

    ghost Value = { Completed };

    ghost view = { λ a. record {
      wholes = wholes_with a.streams a.told.items;
      unlisted = a.unlisted.items;
    } };

    ghost invariant = { λ a. a.added ≡ added_in (wholes_with a.streams a.told.items) };
}

/// Returns the completion with all these events and marks. Its told events are those of the
/// streams, and the unlisted processes tell none. It copies no event.
pub fn completion_of(
    streams: &Streams,
    all: Streams,
    lists: Vec<Sequence<bool>>,
    unlisted: Vec<Pid>,
) -> Completion
    requires { told_streams (wholes_with all lists.items)
        ≡ with_silent streams.now unlisted.items }
    ensures wholes { result.wholes ≡ wholes_with all lists.items }
    ensures unlisted { result.unlisted ≡ unlisted.items }
{
    let added = all.total().saturating_sub(streams.total());
    Completion {
        streams: all,
        told: lists,
        unlisted,
        added,
    }
}

/// Returns the marks of the process at a place; none past the end of the lists.
pub fn marks_at(lists: &[Sequence<bool>], place: usize) -> &[bool]
    ensures { result.now ≡ get_or lists.now place [] }
{
    match lists.get(place) {
        None => &[],
        Some(marks) => marks.as_slice(),
    }
}

/// Returns whether the event at an index is told; events past the end of the marks aren't.
pub fn is_marked(marks: &[bool], index: usize) -> bool
    ensures { result ≡ get_or marks.now index false }
{
    if index < marks.len() {
        return marks[index];
    }
    false
}

/// Returns whether the event at an index is told; `None` past the last event.
fn mark_at(event_count: u64, marks: &[bool], index: u64) -> Option<bool>
    ensures { (es : List EventValue) → length es ≡ event_count →
        result ≡ option_map (λ m. m.told) (slice_get (marked_with es marks.now) index) }
{
    if index >= event_count {
        return None;
    }
    Some(is_marked(marks, index as usize))
}

impl Completion {
    /// Returns all events, told or not.
    pub fn streams(&self) -> &Streams
        ensures { result.now ≡ all_streams self.now.wholes }
    {
        &self.streams
    }

    /// Returns the marks of each process, by its place; events past the end of its marks are
    /// untold.
    pub fn marks(&self) -> &[Sequence<bool>]
        ensures { wholes_with (all_streams self.now.wholes) result.now ≡ self.now.wholes }
    {
        &self.told
    }

    /// Returns the marks of a process; its events past the end of them are untold.
    pub fn marks_of(&self, pid: Pid) -> &[bool]
        ensures { marked_with (events_of (all_streams self.now.wholes) pid) result.now
            ≡ marked_of self.now.wholes pid }
    {
        let _pids = self.streams.pids();
        match self.streams.place_of(pid) {
            None => &[],
            Some(place) => marks_at(&self.told, place),
        }
    }

    /// Returns whether the event at an index of a process is told; `None` if there is no event.
    pub fn told(&self, pid: Pid, index: u64) -> Option<bool>
        ensures { result
            ≡ option_map (λ m. m.told) (slice_get (marked_of self.now.wholes pid) index) }
    {
        match self.streams.place_of(pid) {
            None => None,
            Some(place) => {
                let event_count = self.streams.events(pid).len() as u64;
                mark_at(event_count, marks_at(&self.told, place), index)
            }
        }
    }

    /// Returns the processes that the streams don't list, by rising pid. None of their events is
    /// told.
    pub fn unlisted(&self) -> &[Pid]
        ensures { result.now ≡ self.now.unlisted }
    {
        &self.unlisted
    }

    /// Returns the number of untold events.
    pub fn added(&self) -> u64
        ensures { result ≡ added_in self.now.wholes }
    {
        self.added
    }
}

impl Tells for Completion {
    ghost marks = { λ c. marks_of c.wholes };

    fn is_told(&self, pid: Pid, index: u64) -> bool {
        self.told(pid, index) == Some(true)
    }
}
