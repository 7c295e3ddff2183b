//! Which send each reported receive took, or the first reason why streams cannot hang together.
//!
//! A send stamps a serial, and a receive reports the serial that it took, so the receive's message
//! is from the send of its sender that has its count. `pair` finds the sends of all receives, and
//! refuses streams only if no acts without a reset show them. It looks at the streams of `st_core`
//! alone; that its refusals are final is proved over the machine's laws.
#![tactic(auto)]

mod answer;
mod filter;
pub mod laws;
mod links;
mod pairing;
mod partner;
mod receives;
mod rows;
mod rules;
mod stamp_table;

pub use answer::{PairFault, Source};
pub use filter::{Filter, Span};
pub use pairing::{Pairing, pair};
pub use partner::{Partner, partner_at};
pub use rows::{Row, list};
