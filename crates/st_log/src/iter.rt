//! Iterators over the entries of a log and over calls. Contracts see each as the list of items
//! that are left.

ghost use Rattle.std.specs.Prelude.{◌≡◌};
ghost use Rattle.std.specs.Iterator.{item_count, YieldsFirst};

use crate::calls::CallLog;
use crate::entry::Entry;
use crate::log::Log;
use st_core::{Act, Reply};
use std::iter::FusedIterator;
use std::marker::Model;

/// The entries of a log, in order.
#[derive(Drop)]
pub struct Entries<'a> {
    log: &'a Log,
    // The place of the next entry.
    place: usize,
}

impl<'a> Model for Entries<'a> {
    ghost use Rattle.std.specs.Prelude.{◌≤◌, List, drop, length};
    ghost use Rattle.st_log.specs.declared.entry.Entry.{Entry};

    ghost Value = { List Entry };

    ghost view = { λ e. drop e.place e.log.now.entries };

    ghost invariant = { λ e. e.place ≤ length e.log.now.entries };
}

impl Log {
    /// Returns an iterator over the entries, in order.
    pub fn iter(&self) -> Entries<'_>
        ensures { result ≡ self.now.entries }
    {
        Entries {
            log: self,
            place: 0,
        }
    }
}

impl<'a> Iterator for Entries<'a> {
    type Item = Entry;

    ghost next_gives = { YieldsFirst (λ rest. rest) };

    ghost remaining = { item_count (λ rest. rest) };

    fn next(&mut self) -> Option<Entry> {
        if self.place == self.log.len() {
            return None;
        }
        let entry = self.log.at(self.place);
        self.place += 1;
        Some(entry)
    }
}

impl<'a> FusedIterator for Entries<'a> {}

impl<'a> IntoIterator for &'a Log {
    type Item = Entry;

    type IntoIter = Entries<'a>;

    ghost into_iter_gives = { λ log rest. rest ≡ log.now.entries };

    fn into_iter(self) -> Entries<'a> {
        self.iter()
    }
}

/// The calls of a `CallLog`, in order.
#[derive(Drop)]
pub struct Calls<'a> {
    log: &'a CallLog,
    // The place of the next call.
    place: usize,
}

impl<'a> Model for Calls<'a> {
    ghost use Rattle.std.specs.Prelude.{◌≤◌, List, drop, length};
    ghost use Rattle.st_core.specs.declared.types.Act.{Act};
    ghost use Rattle.st_core.specs.declared.types.Reply.{Reply};

    ghost Value = { List (Act × Reply) };

    ghost view = { λ c. drop c.place c.log.now.calls };

    ghost invariant = { λ c. c.place ≤ length c.log.now.calls };
}

impl CallLog {
    /// Returns an iterator over the calls, in order.
    pub fn iter(&self) -> Calls<'_>
        ensures { result ≡ self.now.calls }
    {
        Calls {
            log: self,
            place: 0,
        }
    }
}

impl<'a> Iterator for Calls<'a> {
    type Item = (Act, Reply);

    ghost next_gives = { YieldsFirst (λ rest. rest) };

    ghost remaining = { item_count (λ rest. rest) };

    fn next(&mut self) -> Option<(Act, Reply)> {
        if self.place == self.log.len() {
            return None;
        }
        let call = self.log.at(self.place);
        self.place += 1;
        Some(call)
    }
}

impl<'a> FusedIterator for Calls<'a> {}

impl<'a> IntoIterator for &'a CallLog {
    type Item = (Act, Reply);

    type IntoIter = Calls<'a>;

    ghost into_iter_gives = { λ log rest. rest ≡ log.now.calls };

    fn into_iter(self) -> Calls<'a> {
        self.iter()
    }
}
