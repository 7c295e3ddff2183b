//! Mailboxes: the queues of many processes in one place, and what an act does to its actor.
//!
//! A contract sees a list of queues, each a list of messages from the oldest on, and `spare`, the
//! number of messages for which there is room already. A message that leaves a queue leaves its
//! room to the next put on any queue. A long queue gets an [`Index`]. [`actor`] has the part of a
//! step that is its actor's own, for the crates that keep many processes. This crate may use the
//! lists of `st_arena`, and the types and local steps of `st_core`.
#![tactic(auto)]

pub mod actor;
mod finder;
mod index;
mod keyed_slots;
mod keys;
mod mailboxes;
mod outcome;
mod queues;

pub use index::Index;
pub use keys::{Keys, SearchKey};
pub use mailboxes::Mailboxes;
pub use outcome::Outcome;
