//! The verdict of `complete`, a process at a time.
//!
//! Each reason of `complete` is about the events of one process and the receives of its messages:
//! a piece. So any program that can sort lines by process finds the verdict, however many events
//! there are. `judge_piece` finds the first reason in a piece, and `first_of` the first in all;
//! `laws` say that it is the one that `complete` names.
#![tactic(auto)]

mod judge;
pub mod laws;
mod own_reasons;
mod placed_reason;
mod receipts;
mod unfounded_events;

pub use judge::judge_piece;
pub use placed_reason::{PlacedReason, Receipt, first_of};
