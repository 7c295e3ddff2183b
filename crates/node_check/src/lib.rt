//! The exact checker of certificates for a standard node.
//!
//! `check_node` returns the verdict that is defined for streams and acts. It steps the processes
//! of a node, and compares their reports with the streams.
#![tactic(auto)]

mod acts;
mod checking;
mod counts;
pub mod laws;
mod local;
mod processes;
mod progress;
#[cfg(test)]
mod tests;
mod verdict;

pub use acts::{NodeAct, ToNodeAct};
pub use checking::check_node;
pub use verdict::{NodeCheckFault, NodeVerdict};
