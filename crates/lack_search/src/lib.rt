//! Candidates: whole streams that may be a completion of streams, with links between their sends
//! and receives.
//!
//! It is proved that a candidate tells the streams, and not that nothing is missing in it: the
//! judge of `lack_decide` looks at all of it, and a wrong part or link only costs time.
#![tactic(auto)]

mod asks;
mod assembly;
mod candidate;
mod hidden_sends;
mod inventions;
mod links;
mod lost_messages;
mod merged_events;
mod positions;
mod senders;
mod short;
mod stretch;
mod unlisted_pids;
mod walk;

pub use candidate::{Candidate, build_candidate};
