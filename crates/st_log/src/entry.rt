//! The entry of a log, a plain value.

use st_core::{Act, Event, Reply, Token};

/// The record of an act in the log of each process that it touches.
#[derive(Clone, Copy, Debug, PartialEq, Eq)]
pub struct Entry {
    /// One more than the greatest rank that the logs of the touched processes had before the act.
    pub rank: u64,
    /// The act.
    pub act: Act,
    /// The reply to the actor.
    pub reply: Reply,
    /// The event that the actor reported, if it did.
    pub report: Option<Event>,
    /// The token that a send's message carried, if it had one. No other act carries one.
    pub carried: Option<Token>,
}
