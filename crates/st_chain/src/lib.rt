//! Causes: the chain of each process and label, the cause of each event, and the way back
//! from an event over its causes.
//!
//! The cause of a receive is its send, which `st_pair` has found. The cause of a send or print is
//! the receive whose count is its prev. Nothing here knows of the machine.
#![tactic(auto)]

mod cause;
mod chain;
mod chains;
mod receives;

pub use cause::Cause;
pub use chain::Chain;
pub use chains::Chains;
