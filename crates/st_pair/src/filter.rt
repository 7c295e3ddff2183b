//! The conditions that choose the events of a list.

ghost use Rattle.std.specs.Prelude.{◌≡◌};
ghost use Rattle.st_pair.specs.Rows.{is_chosen, is_label, is_process, is_within};

use st_core::{Event, Label, Pid};

/// The numbers from `first` to `last`, both included.
#[derive(Clone, Copy)]
pub struct Span {
    pub first: u64,
    pub last: u64,
}

/// The conditions that an event has to meet. `None` is no condition.
#[derive(Clone, Copy)]
pub struct Filter {
    /// The label of the event.
    pub label: Option<Label>,
    /// The process that reports the event.
    pub process: Option<Pid>,
    /// The lines of the text on which the event may be.
    pub lines: Option<Span>,
    /// The counts that the event may have; the count is the second number of its serial.
    pub counts: Option<Span>,
}

fn is_within(span: Option<Span>, number: u64) -> bool
    ensures { result ≡ is_within span number }
{
    match span {
        None => true,
        Some(span) => span.first <= number && number <= span.last,
    }
}

fn is_label(wanted: Option<Label>, label: Label) -> bool
    ensures { result ≡ is_label wanted label }
{
    match wanted {
        None => true,
        Some(wanted) => wanted.0 == label.0,
    }
}

fn is_process(wanted: Option<Pid>, pid: Pid) -> bool
    ensures { result ≡ is_process wanted pid }
{
    match wanted {
        None => true,
        Some(wanted) => wanted == pid,
    }
}

impl Filter {
    /// Returns whether the event, which `pid` reports on line `line`, meets every condition.
    pub fn chooses(&self, pid: Pid, line: u64, event: &Event) -> bool
        ensures { result ≡ is_chosen self.now pid line event.now }
    {
        is_label(self.label, event.label)
            && is_process(self.process, pid)
            && is_within(self.lines, line)
            && is_within(self.counts, event.serial.this)
    }
}
