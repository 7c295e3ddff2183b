//! Counts which flags most events want, and how many counts are missing before stamps.

ghost use Rattle.std.specs.Prelude.{◌≡◌, [], nat_le};
ghost use Rattle.lack_needs.specs.Completions.{marked_with, wholes_with};
ghost use Rattle.lack_acts.specs.Missing.{missing_before, missing_from, missing_in};
ghost use Rattle.lack_acts.specs.Tallies.{counted, counted_by_kind, counted_from, counted_whole};
ghost use Rattle.lack_acts.specs.Tallies.{no_flags, usual_flags, with_silence};

use lack_needs::{Left, is_marked, marks_at};
use st_core::{Event, Flags, Kind, Sequence, Streams};

/// The numbers of told and of untold events of one kind.
#[derive(Clone, Copy)]
pub(crate) struct FlagTally {
    told: u64,
    untold: u64,
}

impl FlagTally {
    fn count(&mut self, is_told: bool)
        ensures { self.new ≡ counted self.old is_told }
    {
        if is_told {
            self.told = self.told.saturating_add(1);
        } else {
            self.untold = self.untold.saturating_add(1);
        }
    }

    /// Returns the flag that is right for at least half of the events.
    fn flag(self) -> bool
        ensures { result ≡ nat_le self.untold self.told }
    {
        self.told >= self.untold
    }
}

/// A tally for each kind of event.
#[derive(Clone, Copy)]
pub(crate) struct FlagTallies {
    sends: FlagTally,
    receives: FlagTally,
    prints: FlagTally,
}

impl FlagTallies {
    fn new() -> FlagTallies
        ensures { result ≡ no_flags }
    {
        let none = FlagTally { told: 0, untold: 0 };
        FlagTallies {
            sends: none,
            receives: none,
            prints: none,
        }
    }

    fn count(&mut self, kind: Kind, is_told: bool)
        ensures { self.new ≡ counted_by_kind self.old kind is_told }
    {
        match kind {
            Kind::Send => self.sends.count(is_told),
            Kind::Receive => self.receives.count(is_told),
            Kind::Print => self.prints.count(is_told),
        }
    }

    /// Counts the silent prints before an event, however many, as one untold print.
    fn count_silence(&mut self, missing: u64)
        ensures { self.new ≡ with_silence self.old missing }
    {
        if missing > 0 {
            self.prints.count(false);
        }
    }

    fn count_process(&mut self, events: &[Event], marks: &[bool])
        ensures { self.new ≡ counted_from self.old [] (marked_with events.now marks.now) }
    {
        let mut left = Left::by_none();
        for (index, event) in events.iter().enumerate() {
            self.count(event.kind, is_marked(marks, index));
            self.count_silence(missing_before(left, event));
            left = left.after(event);
        }
    }

    fn of(streams: &Streams, marks: &[Sequence<bool>]) -> FlagTallies
        ensures { result ≡ counted_whole no_flags (wholes_with streams.now marks.now) }
    {
        let mut tallies = FlagTallies::new();
        for (process, &pid) in streams.pids().iter().enumerate() {
            tallies.count_process(streams.events(pid), marks_at(marks, process));
        }
        tallies
    }
}

/// Returns for each kind the flag that is right for at least half of the events. A restored token
/// gets it if its stamp leaves it free.
pub(crate) fn usual_flags(streams: &Streams, marks: &[Sequence<bool>]) -> Flags
    ensures { result ≡ usual_flags (wholes_with streams.now marks.now) }
{
    let tallies = FlagTallies::of(streams, marks);
    Flags {
        send: tallies.sends.flag(),
        receive: tallies.receives.flag(),
        print: tallies.prints.flag(),
    }
}

/// Returns how many counts the process passed unreported before the next event.
pub(crate) fn missing_before(left: Left, next: &Event) -> u64
    ensures { result ≡ missing_before left next.now }
{
    match next.kind {
        Kind::Receive => 0,
        Kind::Send | Kind::Print => next
            .serial
            .this
            .saturating_sub(1)
            .saturating_sub(left.greatest),
    }
}

/// Returns how many counts are missing before the events of a process.
fn missing_from(events: &[Event]) -> u64
    ensures { result ≡ missing_from 0 [] events.now }
{
    let mut left = Left::by_none();
    let mut missing: u64 = 0;
    for event in events {
        missing = missing.saturating_add(missing_before(left, event));
        left = left.after(event);
    }
    missing
}

/// Returns how many counts are missing before all events.
pub(crate) fn missing_in(streams: &Streams) -> u64
    ensures { result ≡ missing_in 0 streams.now }
{
    let mut missing: u64 = 0;
    for &pid in streams.pids() {
        missing = missing.saturating_add(missing_from(streams.events(pid)));
    }
    missing
}
