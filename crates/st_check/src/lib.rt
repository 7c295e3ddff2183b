//! The exact checker of certificates, and the replay of acts.
//!
//! `check` returns the verdict on streams and acts, `replay` returns what acts report and reply,
//! and `reports` only what they report. All step a `World`; none reads or writes text. A caller
//! that steps a `World` for another purpose gets the same verdict from a `Comparison`.
#![tactic(auto)]

mod checking;
mod comparison;
pub mod laws;
mod progress;
mod recording;
mod tags;
mod verdict;

pub use checking::check;
pub use comparison::Comparison;
pub use recording::{replay, reports};
pub use verdict::{CheckFault, ReplayFault, Replayed, Reports, Verdict};
