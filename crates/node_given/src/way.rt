//! What gives an event.

use st_core::Serial;

/// What gives an event, by the events of its process before it.
#[derive(Clone, Copy, Debug, PartialEq, Eq)]
pub enum Way {
    /// The event is a receive.
    Receive,
    /// The stamp goes on from the counts after the events.
    Plain,
    /// The stamp goes on from the counts after the events in no reading, but it does if this token,
    /// which the process held or can have made, was put back right before it.
    PutBack(Serial),
    /// No token that was put back right before the stamp gives it, but this one does if it was put
    /// back right before the receive before it, whose count is its prev. Others may do so too.
    Lowered(Serial),
    /// No token that the process held gives the stamp.
    Ungiven,
}
