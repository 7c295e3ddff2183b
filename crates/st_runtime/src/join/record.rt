//! The record of one run that the threads made.

use st_core::{Act, Reply, Sequence, Streams};

/// One run of the machine from the zero state.
#[derive(Debug, Drop)]
pub struct Record {
    /// The streams that the processes reported.
    pub streams: Streams,
    /// The acts, by rising rank and then actor.
    pub acts: Sequence<Act>,
    /// The replies to the actors.
    pub replies: Sequence<Reply>,
}
