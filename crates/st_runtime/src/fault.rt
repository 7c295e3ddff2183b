//! Why a call fails. After a failure all is as it was, but for room.

ghost use Rattle.std.specs.Prelude.{◌≡◌};
ghost use Rattle.st_runtime.specs.Working.{opening_fault, joining_fault};

use st_core::Pid;
use std::alloc::AllocError;
use thiserror::Error;

/// Why an act on lent processes was refused.
#[derive(Clone, Copy, Debug, PartialEq, Eq, Error)]
pub enum PcbFault {
    /// Memory ran out for an entry or a message.
    #[error("no memory")]
    Memory,
    /// The actor's clock is at its greatest value, so its token can't be stamped.
    #[error("a clock is at its greatest value")]
    ClockFull,
    /// The greatest rank is in a log already.
    #[error("a log has the greatest rank")]
    RankFull,
}

/// Why an act in a system was refused.
#[derive(Clone, Copy, Debug, PartialEq, Eq, Error)]
pub enum ActFault {
    /// Memory ran out for an entry, a message or the seat's call.
    #[error("no memory")]
    Memory,
    /// The actor, or a send's receiver, isn't in the system.
    #[error("a process isn't in the system")]
    Unknown,
    /// The actor's clock is at its greatest value, so its token can't be stamped.
    #[error("a clock is at its greatest value")]
    ClockFull,
    /// The greatest rank is in a log already.
    #[error("a log has the greatest rank")]
    RankFull,
    /// The actor isn't the seat's process. Comes before all other refusals.
    #[error("the actor isn't the seat's process")]
    NotYours,
    /// A lock holds another process than its own, which no call leaves.
    #[error("a lock holds another process")]
    Stray,
}

/// Why no system was opened.
#[derive(Clone, Copy, Debug, PartialEq, Eq, Error)]
pub enum SystemFault {
    /// Memory ran out.
    #[error("no memory")]
    Memory,
    /// The pids don't rise strictly. Comes before `Memory`.
    #[error("the pids don't rise")]
    NotRising,
}

/// Why pieces are not joined.
#[derive(Clone, Copy, Debug, PartialEq, Eq, Error)]
pub enum JoinFault {
    /// Memory ran out.
    #[error("no memory")]
    Memory,
    /// The entry at the place of the process's log isn't in the log of each process that its act
    /// touches. It is the first such entry, by pid and then place.
    #[error("an entry isn't in the log of each process that its act touches")]
    Missing(Pid, u64),
    /// The process has a seat and no log, not exactly one seat, or a seat whose calls aren't those
    /// of its log. It is the least such process.
    #[error("a process hasn't the one seat that its log tells of")]
    SeatDiffers(Pid),
}

/// Why scripts aren't driven. The faults come in the order `NotRising`, `Thread`, `Memory`, `Act`,
/// `Join`; but if memory runs out before the threads start, it is `Memory` at once.
#[derive(Clone, Copy, Debug, PartialEq, Eq, Error)]
pub enum DriveFault {
    /// Memory ran out, perhaps in a worker's act or in the join.
    #[error("no memory")]
    Memory,
    /// The act with the number in the process's script was refused, and its worker stopped there.
    /// No process before it has an act in its script that is another's or that names an unknown
    /// process; that none met a full clock or rank is only tested. A `ClockFull` or `RankFull`
    /// that the scripts have too few acts for is a `Stray` here.
    #[error("an act of a script was refused")]
    Act(Pid, u64, ActFault),
    /// The pieces don't fit, which no call leaves.
    #[error("the pieces don't fit")]
    Join(JoinFault),
    /// A thread couldn't be started. The threads that were started stopped before their next act.
    #[error("a thread couldn't be started")]
    Thread,
    /// The pids don't rise strictly.
    #[error("the pids don't rise")]
    NotRising,
}

impl From<AllocError> for JoinFault {
    ghost use Rattle.st_runtime.specs.declared.fault.JoinFault.TheVariants.{Memory};

    ghost from_gives = { λ _ fault. fault ≡ Memory };

    fn from(_: AllocError) -> JoinFault {
        JoinFault::Memory
    }
}

impl From<AllocError> for DriveFault {
    ghost use Rattle.st_runtime.specs.declared.fault.DriveFault.TheVariants.{Memory};

    ghost from_gives = { λ _ fault. fault ≡ Memory };

    fn from(_: AllocError) -> DriveFault {
        DriveFault::Memory
    }
}

impl From<SystemFault> for DriveFault {
    ghost from_gives = { λ opening fault. fault ≡ opening_fault opening };

    fn from(fault: SystemFault) -> DriveFault {
        match fault {
            SystemFault::Memory => DriveFault::Memory,
            SystemFault::NotRising => DriveFault::NotRising,
        }
    }
}

impl From<JoinFault> for DriveFault {
    ghost from_gives = { λ joining fault. fault ≡ joining_fault joining };

    fn from(fault: JoinFault) -> DriveFault {
        match fault {
            JoinFault::Memory => DriveFault::Memory,
            JoinFault::Missing(..) | JoinFault::SeatDiffers(_) => DriveFault::Join(fault),
        }
    }
}
