//! The results of the checker and of the replay.

use st_core::{Pid, Reply, Sequence, Streams};
use thiserror::Error;

/// The verdict on acts as a certificate of streams. Acts are numbered from 0.
#[derive(Debug, Drop)]
pub enum Verdict {
    /// The act with this number has no step: its process or its receiver isn't there, or a clock is
    /// full. All acts before it pass.
    Stuck(u64),
    /// The act with this number reports an event that isn't the next one of its actor's stream.
    /// All acts before it pass.
    Differs(u64),
    /// All acts pass, and this is the least pid of a process with events left.
    Left(Pid),
    /// The acts are a run in which each process reports exactly its stream. Each pair has the
    /// number of a reported receive and that of the send whose message it took; the receives rise.
    Yes(Sequence<(u64, u64)>),
}

/// Why there is no verdict.
#[derive(Clone, Copy, Debug, PartialEq, Eq, Error)]
pub enum CheckFault {
    /// Memory ran out.
    #[error("no memory")]
    Memory,
}

/// The outcome of a replay.
#[derive(Debug, Drop)]
pub enum Replayed {
    /// The acts have a run: what each process reported in it, and each act's reply.
    Ran(Streams, Sequence<Reply>),
    /// The number of the first act that has no step.
    Stuck(u64),
}

/// The outcome of a replay without replies.
#[derive(Debug, Drop)]
pub enum Reports {
    /// The acts have a run: what each process reported in it.
    Ran(Streams),
    /// The number of the first act that has no step.
    Stuck(u64),
}

/// Why acts weren't replayed.
#[derive(Clone, Copy, Debug, PartialEq, Eq, Error)]
pub enum ReplayFault {
    /// Memory ran out. Comes only if the pids rise.
    #[error("no memory")]
    Memory,
    /// The pids don't rise strictly, which is tested first.
    #[error("the pids don't rise")]
    NotRising,
}
