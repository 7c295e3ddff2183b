//! How early a process has had each token.

ghost use Rattle.std.specs.Prelude.{◌≡◌, ◌+◌, ◌<◌, ◌≤◌, ◌^◌, ◌↔◌, [], ◌∷◌, ℕ, length, slice_get};
ghost use Rattle.std.specs.Prelude.{take};
ghost use Rattle.std.specs.Prelude.{List, Some, IfOk, IsTrue, OnOk};
ghost use Rattle.std.specs.HashMap.{get};
ghost use Rattle.st_core.specs.declared.types.Serial.{Serial as SerialValue};
ghost use Rattle.node_machine.specs.declared.types.Seen.{Seen as SeenValue};
ghost use Rattle.node_machine.specs.Given.{tokens};
ghost use Rattle.node_given.specs.Walk.{AreFit};
ghost use Rattle.node_origins.specs.Tables.{AreFirstTokens, HasPredecessor, IsSince, same_serial};

use crate::counts::{count_after, last_of_answer};
use node_machine::Seen;
use st_core::{Kind, Serial};
use std::alloc::{AllocError, Global};
use std::collections::HashMap;

/// The number of events after which a process has had, or can have made, a token that a stamp
/// succeeds.
#[derive(Drop)]
pub(crate) struct FirstTokens {
    /// The number of events up to the one that first shows the token, by the stamp's prev and
    /// count.
    pub(crate) since: HashMap<(u64, u64), usize>,
}

impl FirstTokens {
    fn new(alloc: Global) -> FirstTokens
        ensures { (es : List SeenValue) → IsSince es 0 [] result }
    {
        FirstTokens {
            since: HashMap::new(alloc),
        }
    }

    /// Adds a token that the event with a number shows.
    fn note(&mut self, prev: u64, this: u64, number: usize) -> Result<(), AllocError>
        ensures { (es : List SeenValue) (xs : List SerialValue) → IsSince es number xs self.old
            → OnOk result (IsSince es number (record { prev = prev; this = this } ∷ xs) self.new) }
    {
        let stamp = (prev, count_after(this));
        if self.since.contains_key(&stamp) {
            return Ok(());
        }
        match self.since.insert(stamp, number) {
            Ok(_) => Ok(()),
            Err(_) => Err(AllocError),
        }
    }

    fn note_event(&mut self, index: usize, event: Seen) -> Result<(), AllocError>
        requires fit { event.serial.this < 2 ^ 60 }
        requires room { index + 1 < 2 ^ 64 }
        ensures { (es : List SeenValue) → slice_get es index ≡ Some event
            → IsSince es (index + 1) [] self.old
            → OnOk result (IsSince es (index + 2) [] self.new) }
    {
        let Serial { prev, this } = event.serial;
        let number = index + 1;
        match event.kind {
            Kind::Send | Kind::Print => {
                self.note(prev, this, number)?;
                self.note(prev, 0, number)
            }
            Kind::Receive => {
                if event.answer {
                    return self.note(last_of_answer(this), 0, number);
                }
                self.note(prev, this, number)?;
                self.note(prev, 0, number)?;
                self.note(this, 0, number)
            }
        }
    }

    pub(crate) fn of(alloc: Global, events: &[Seen]) -> Result<FirstTokens, AllocError>
        requires { AreFit events.now }
        ensures { IfOk result (AreFirstTokens events.now) }
    {
        let mut tokens = FirstTokens::new(alloc);
        tokens.note(0, 0, 0)?;
        for (index, &event) in events.iter().enumerate() {
            tokens.note_event(index, event)?;
        }
        Ok(tokens)
    }

    /// Returns the number of events up to the one that first shows a token that the stamp
    /// succeeds.
    fn number(&self, stamp: Serial) -> Option<usize>
        ensures { result ≡ get same_serial self.now.since (stamp.prev, stamp.this) }
    {
        self.since.get(&(stamp.prev, stamp.this)).copied()
    }

    /// Returns whether the process had a token that the stamp succeeds after the first `events`
    /// events.
    pub(crate) fn has(&self, stamp: Seen, events: usize) -> bool
        ensures { (es : List SeenValue) → AreFirstTokens es self.now → events ≤ length es
            → IsTrue result
            ↔ HasPredecessor (tokens (take events es)) stamp.serial.prev stamp.serial.this }
    {
        match self.number(stamp.serial) {
            Some(number) => number <= events,
            None => false,
        }
    }
}
