//! Samples for the tests of several crates: texts of bundles, and two processes.
//!
//! A text that only one crate's tests take is in that crate. Helpers that assert are in each crate
//! that needs them, even if two crates have the same, since they end the process, which only tests
//! may do.
#![tactic(auto)]

mod bundles;
mod pids;

pub use bundles::{HIDDEN_SENDS_CERTIFICATE, ONE_MESSAGE};
pub use pids::{p30, p31};
