//! Acts for a completion, as a person would write them: a token is set once and then travels.
//!
//! The acts have a run, and none of them is a reset. Whether they show the told events,
//! `lack_decide` finds out: it lets the checker judge them.
#![tactic(auto)]

mod acts;
mod climbs;
mod demands;
mod gaps;
mod homes;
mod insertion;
mod lean;
mod marked_streams;
mod messages;
mod offers;
mod strays;
mod tallies;

pub use acts::lean_acts;
pub use lean::LeanFault;
