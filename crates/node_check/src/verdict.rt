//! The verdicts and faults of the checker.

use st_core::Pid;
use thiserror::Error;

/// The verdict about acts and streams. Acts are numbered from 0.
#[derive(Clone, Copy, Debug, PartialEq, Eq)]
pub enum NodeVerdict {
    /// The act with this number has no step: its process or its receiver isn't there. All acts
    /// before it pass.
    Stuck(u64),
    /// The act with this number reports something else than the next event of its actor's stream.
    /// All acts before it pass.
    Differs(u64),
    /// All acts pass, and this is the least process with events left.
    Left(Pid),
    /// The acts are a run in which each process reports exactly its stream.
    Yes,
}

/// Why there is no verdict.
#[derive(Clone, Copy, Debug, PartialEq, Eq, Error)]
pub enum NodeCheckFault {
    /// Memory ran out.
    #[error("no memory")]
    Memory,
}
