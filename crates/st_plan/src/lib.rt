//! The plan of the auditor's acts: the items of an order as moves of counts, the reasons
//! against one of them, and the acts that are built for each.
//!
//! The definitions are about streams alone, and `ready` writes the acts before a stamp as a list:
//! nothing here steps a world. The main law is that the acts of plain streams show them.
#![tactic(auto)]

pub mod laws;
mod marks;
mod plan;

pub use marks::{Everything, Tells};
pub use plan::{QUIET, Start, ready};
