//! Gates, which are told of each act that holds all its locks, so that tests can let threads meet.

use st_core::Pid;

/// A gate is told of each act that comes to hold all its locks, also of one that is then refused:
/// its process, and the number of acts that the seat kept when the call began.
pub trait Gate {
    /// Is called once all locks are held, before an entry is written.
    fn before(&self, pid: Pid, n: u64);

    /// Is called once all locks are given back.
    fn after(&self, pid: Pid, n: u64);
}

/// A gate that does nothing.
#[derive(Clone, Copy, Debug)]
pub struct OpenGate;

impl Gate for OpenGate {
    fn before(&self, _pid: Pid, _n: u64) {}

    fn after(&self, _pid: Pid, _n: u64) {}
}
