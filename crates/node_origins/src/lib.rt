//! Finds which origins a process's events allow for the token of each of its stamps, if it ran on
//! a standard node, by one walk over the events.
#![tactic(auto)]

mod counts;
mod first_labels;
mod first_tokens;
mod home;
mod origin;
mod successors;
#[cfg(test)]
mod tests;
mod walk;

pub use origin::{EventOrigins, StampOrigin};
pub use walk::origins;
