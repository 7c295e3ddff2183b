//! Why a world refuses a call, as plain values to match on.

use thiserror::Error;

/// Why a world isn't made.
#[derive(Clone, Copy, Debug, PartialEq, Eq, Error)]
pub enum NewFault {
    /// Memory ran out. The pids rise.
    #[error("no memory")]
    Memory,
    /// The pids don't rise strictly. This is checked first.
    #[error("the pids don't rise")]
    NotRising,
}

/// Why an act is refused. The world stays as it was.
#[derive(Clone, Copy, Debug, PartialEq, Eq, Error)]
pub enum StepFault {
    /// Memory ran out for the message of a send. The definition has a step for it.
    #[error("no memory")]
    Memory,
    /// The actor or the receiver of a send isn't in the world. This is checked first.
    #[error("a process isn't in the world")]
    Unknown,
    /// The actor's clock is at its greatest value, so its token can't be stamped. This is checked
    /// next.
    #[error("a clock is at its greatest value")]
    ClockFull,
}
