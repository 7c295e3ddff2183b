//! Judges the streams of a standard node together: which send each receive took, and whether all
//! events have an order.
#![tactic(auto)]

mod alike;
mod content;
mod ends;
mod judgement;
pub mod laws;
mod numbers;
mod order;
mod partners;
mod receives;
mod sends;
#[cfg(test)]
mod tests;
mod walk;

pub use content::MessageContent;
pub use judgement::{Judgement, judge};
pub use partners::MessageEnds;
pub use sends::Sends;
