//! Hops of a standard node, back and forth from event to event, and what they claim of each run of
//! the node.
#![tactic(auto)]

mod back;
mod forth;
mod hop;
mod hops;
pub mod laws;
mod node;
mod process;
mod reach;
mod rows;
#[cfg(test)]
mod tests;

pub use back::way;
pub use forth::tree;
pub use hop::{NodeHop, NodePremises};
pub use hops::NodeHops;
pub use node::Node;
pub use process::process_hops;
pub use reach::Reach;
