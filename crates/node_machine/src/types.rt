//! An event as its process's stream shows it, and a reading of events.

use st_core::{Kind, Label, Serial};

/// An event of one process, as its stream shows it.
#[derive(Clone, Copy, Debug, PartialEq, Eq)]
pub struct Seen {
    /// The kind of the event.
    pub kind: Kind,
    /// The label of the event's token.
    pub label: Label,
    /// The serial of the event's token: each count is the number from 0 to 2^60 - 1 that has the
    /// lowest 60 bits of the node's.
    pub serial: Serial,
    /// Whether the event is the receive by which `spawn` gets the new process's answer. The event
    /// doesn't say so: its message's term does.
    pub answer: bool,
}

/// One way to read the events of a process.
#[derive(Clone, Copy, Debug, PartialEq, Eq)]
pub struct Reading {
    /// The clock after the events, with the bits that a serial hides.
    pub clock: u64,
    /// The number of tokens that the process put back.
    pub put_backs: u64,
}
