//! The flaws that an event may have, given the events of its process before it.

ghost use Rattle.std.specs.Prelude.{◌≡◌, ◌↔◌, [], ◌∷◌, ◌++◌, List, IsTrue};
ghost use Rattle.st_core.specs.declared.types.Event.{Event as EventValue};
ghost use Rattle.st_pair.specs.Places.{is_stamp};
ghost use Rattle.st_core.specs.Laws.{greatest_count, prev_after};
ghost use Rattle.lack_needs.specs.Flaws.{left_by, test_of, GoesOnWithin};

use st_core::{Event, Kind};

/// The two numbers that the events of a process leave to its next one. They are enough to find its
/// flaws, so one pass tests all events.
#[derive(Clone, Copy, Debug)]
pub struct Left {
    /// The greatest count of the events; 0 if there is none.
    pub greatest: u64,
    /// The prev that the last event leaves: its own if it is a send or print, its count if it is a
    /// receive; 0 if there is no event.
    pub prev: u64,
}

/// A flaw that an event may have, given the events of its process before it.
#[derive(Clone, Copy, Debug)]
pub enum Flaw {
    /// A send or print whose count isn't above all counts before it.
    Late,
    /// A send or print whose prev the events before it don't leave and no new trace has: a receive
    /// is missing.
    Need,
    /// An event whose count is above the given one.
    TooHigh(u64),
}

/// Returns whether the event is a send or a print.
pub fn is_stamp(event: &Event) -> bool
    ensures { result ≡ is_stamp event.now }
{
    match event.kind {
        Kind::Send | Kind::Print => true,
        Kind::Receive => false,
    }
}

/// Returns the prev that an event leaves: its own if it is a send or print, its count if it is a
/// receive.
pub fn prev_left(event: &Event) -> u64
    ensures { result ≡ prev_after (event.now ∷ []) }
{
    match event.kind {
        Kind::Send | Kind::Print => event.serial.prev,
        Kind::Receive => event.serial.this,
    }
}

impl Left {
    /// Returns what no events leave.
    pub fn by_none() -> Left
        ensures { result ≡ left_by [] }
    {
        Left {
            greatest: 0,
            prev: 0,
        }
    }

    /// Returns what the events leave with one more event.
    pub fn after(self, event: &Event) -> Left
        ensures { (es : List EventValue) → self ≡ left_by es → result
            ≡ left_by (es ++ event.now ∷ []) }
    {
        Left {
            greatest: self.greatest.max(event.serial.this),
            prev: prev_left(event),
        }
    }

    /// Returns whether the next event has the flaw.
    pub fn flaws(self, event: &Event, flaw: Flaw) -> bool
        ensures { (es : List EventValue) → self ≡ left_by es → result ≡ test_of flaw es event.now }
    {
        match flaw {
            Flaw::Late => is_stamp(event) && self.greatest >= event.serial.this,
            Flaw::Need => self.lacks(event),
            Flaw::TooHigh(top) => top < event.serial.this,
        }
    }

    /// Returns whether the event is a need: a receive with its prev as count is missing before it.
    pub fn lacks(self, event: &Event) -> bool
        ensures { (es : List EventValue) → self ≡ left_by es → result
            ≡ test_of Flaw.Need es event.now }
    {
        is_stamp(event) && (event.serial.prev != self.prev && event.serial.prev < self.greatest)
    }

    /// Returns whether the next event goes on from the events: its serial rises, its count is at
    /// most `top`, and it is neither late nor a need.
    pub fn goes_on(self, event: &Event, top: u64) -> bool
        ensures { (es : List EventValue) → self ≡ left_by es
            → (IsTrue result ↔ GoesOnWithin top es event.now) }
    {
        event.serial.this > event.serial.prev
            && !self.flaws(event, Flaw::TooHigh(top))
            && !self.flaws(event, Flaw::Late)
            && !self.flaws(event, Flaw::Need)
    }
}
