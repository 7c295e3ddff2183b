//! The events of one process with one label.

ghost use Rattle.std.specs.Prelude.{◌≡◌, ◌+◌, ◌<◌, [], ◌∷◌, length, IfNone, IfSome};
ghost use Rattle.std.specs.Iterator.{YieldsFirst, item_count};
ghost use Rattle.st_chain.specs.Labels.{indexes_from, labelled_indexes};

use st_core::{Event, Label};
use std::marker::Model;

/// The indexes of a process's events with one label, rising. A contract sees it as the list of the
/// indexes that are left.
#[derive(Drop)]
pub struct Chain<'a> {
    events: &'a [Event],
    label: Label,
    // The index of the event that is looked at next.
    next: usize,
}

impl<'a> Model for Chain<'a> {
    ghost use Rattle.std.specs.Prelude.{ℕ, List};
    ghost use Rattle.st_chain.specs.Labels.{indexes_from};

    ghost Value = { List ℕ };

    ghost view = { λ c. indexes_from c.label c.next c.events.now };
}

impl<'a> Chain<'a> {
    /// Makes the chain of a process's events with the label.
    pub(crate) fn new(events: &'a [Event], label: Label) -> Chain<'a>
        ensures { result ≡ labelled_indexes label 0 events.entry.now }
    {
        Chain {
            events,
            label,
            next: 0,
        }
    }
}

/// Returns the first index from `start` on whose event has the label.
fn next_index(events: &[Event], label: Label, start: usize) -> Option<usize>
    ensures some { IfSome result (λ i. indexes_from label start events.now
        ≡ i ∷ indexes_from label (i + 1) events.now) }
    ensures within { IfSome result (λ i. i < length events.now) }
    ensures none { IfNone result (indexes_from label start events.now ≡ []) }
{
    for index in start..events.len() {
        if events[index].label.0 == label.0 {
            return Some(index);
        }
    }
    None
}

impl<'a> Iterator for Chain<'a> {
    type Item = u64;

    ghost next_gives = { YieldsFirst (λ rest. rest) };

    ghost remaining = { item_count (λ rest. rest) };

    fn next(&mut self) -> Option<u64> {
        let index = next_index(self.events, self.label, self.next)?;
        self.next = index + 1;
        Some(index as u64)
    }
}
