//! Causes.

use st_core::Pid;

/// The cause of an event.
#[derive(Clone, Copy, Debug, PartialEq, Eq)]
pub enum Cause {
    /// The event of this process at this index of its stream, counted from 0: the send of a
    /// receive, or the receive whose count is the prev of a send or print.
    Event(Pid, u64),
    /// The send of a receive, if nobody reported it.
    Hidden,
    /// No event: no reported receive of the process before this send or print has its prev as its
    /// count. The event begins a trace, or its cause wasn't reported.
    Start,
}
