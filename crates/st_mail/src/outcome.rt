//! The outcome of an act, as a plain value.

use st_core::{Event, Reply};

/// What an act returns and reports, without what it changes.
#[derive(Clone, Copy, Debug, PartialEq, Eq)]
pub struct Outcome {
    /// The reply to the actor.
    pub reply: Reply,
    /// The event for the system tracer, if the act is reported.
    pub report: Option<Event>,
    /// The place from which a receive took its message; the oldest in the queue is at place 0.
    pub place: Option<u64>,
}
