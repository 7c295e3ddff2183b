//! A standard node, and what its streams say of the tokens of its processes.
#![tactic(auto)]

pub mod laws;
mod types;

pub use types::{Reading, Seen};
