//! The right to act for one process, with the acts that were accepted through it.

ghost use Rattle.std.specs.Prelude.{◌≡◌, IfOk};
ghost use Rattle.st_runtime.specs.Seat.{no_calls};

use st_core::Pid;
use st_log::CallLog;
use std::alloc::{AllocError, Global};
use std::marker::Model;

/// A seat of a process: its holder makes the acts of the process.
#[derive(Drop)]
pub struct Seat {
    pub(crate) pid: Pid,
    pub(crate) mine: CallLog,
}

impl Model for Seat {
    ghost use Rattle.st_runtime.specs.Seat.{Calls};

    ghost Value = { Calls };

    ghost view = { λ s. record { pid = s.pid; mine = s.mine.calls } };
}

impl Seat {
    /// Makes a seat through which no act was made yet. Fails if memory runs out.
    pub(crate) fn new(alloc: Global, pid: Pid) -> Result<Seat, AllocError>
        ensures { IfOk result (λ seat. seat ≡ no_calls pid) }
    {
        let mine = CallLog::with_capacity(alloc, 0)?;
        Ok(Seat { pid, mine })
    }

    /// Returns the pid of the seat's process.
    pub fn pid(&self) -> Pid
        ensures { result ≡ self.now.pid }
    {
        self.pid
    }

    /// Returns the acts that were accepted through the seat, with their replies, in order.
    pub fn mine(&self) -> &CallLog
        ensures { result.now.calls ≡ self.now.mine }
    {
        &self.mine
    }
}
