//! The question of `why`: an event, a direction from it, and a reach.

use node_hops::Reach;
use st_core::Pid;

/// The direction from the event.
#[derive(Clone, Copy)]
pub enum Direction {
    /// To the event that it follows, and so on.
    Back,
    /// To all events that follow it.
    Forth,
}

/// The question that `why` answers.
#[derive(Clone, Copy)]
pub struct Question {
    /// The process of the event, and its index there, counted from 0.
    pub place: (Pid, u64),
    /// The direction from the event.
    pub direction: Direction,
    /// How far to go.
    pub reach: Reach,
}
