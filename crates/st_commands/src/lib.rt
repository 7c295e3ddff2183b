//! The commands of `seqaudit` on any reader and writer: each reads all bytes, writes the output for
//! them, and returns the exit status.
//!
//! The contract of `run` says what it writes and returns, and each command has a function whose
//! contract says it for that command. The definitions are in `specs/`; `laws` says what the
//! outputs mean.
#![tactic(auto)]

mod answer;
mod audit;
mod chart;
mod check;
mod drive;
pub mod laws;
mod lines;
mod pipe;
mod program;
mod replay;
mod words;

pub use answer::{status_of, tell_bundle, tell_fault, tell_finding, tell_line, tell_refusal};
pub use audit::{run_audit, run_audit_within};
pub use chart::run_chart;
pub use check::{TOP, run_check, run_check_within};
pub use drive::run_drive;
pub use pipe::Pipe;
pub use program::run;
pub use replay::run_replay;
pub use words::{Refusal, Task, read_words};
