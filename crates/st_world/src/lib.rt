//! The whole machine: processes with their tokens, clocks and queues, and one step of it.
//!
//! A contract sees a world as the state of the machine's definition: the list of its processes by
//! rising pid. `World::step` makes a step if and only if the definition has it, unless memory runs
//! out. The crate may use the types and definitions of `st_core` and the mailboxes of `st_mail`.
#![tactic(auto)]

mod node;
mod nodes;
mod numbers;
mod outcome;
mod processes;
mod rows;
mod world;

pub use outcome::{NewFault, StepFault};
pub use st_mail::Outcome;
pub use world::World;
