//! Finds what gives each stamp of a process that ran on a standard node, by one walk over its
//! events.
#![tactic(auto)]

mod clocks;
mod counts;
#[cfg(test)]
mod tests;
mod tokens;
mod walk;
mod way;

pub use walk::given;
pub use way::Way;
