//! Threads as processes: one lock for each process, and under it a log of the acts that touched
//! it.
//!
//! An act is made under the locks of all processes that it touches, and leaves one entry in the
//! log of each. There is no other lock. The threads of `drive` share only the locks, and a mark
//! that tells them to stop if a thread couldn't be started. The machine is `st_core`'s and the
//! actor's part of a step `st_mail`'s: nothing here defines a step.
//!
//! A contract sees a lock's value as a process of the machine and the log that gives its state.
//! When a lock is taken, nothing is known of its value but the invariant of its type.
#![tactic(auto)]

mod driver;
mod fault;
mod join;
pub mod laws;
mod pcb;
mod system;

pub use driver::worker::WORKER_STACK;
pub use driver::{drive, drive_on};
pub use fault::{ActFault, DriveFault, JoinFault, PcbFault, SystemFault, SystemFault as OpenFault};
pub use join::join_pieces;
pub use join::record::Record;
pub use pcb::Pcb;
pub use st_log::{CallLog, Calls, Entries, Entry, Log};
pub use system::System;
pub use system::gate::{Gate, OpenGate};
pub use system::pieces::Pieces;
pub use system::seat::Seat;
