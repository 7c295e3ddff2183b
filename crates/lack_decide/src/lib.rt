//! A completion of a trace, or the reason why it has none, and the acts of a completion.
//!
//! `complete` decides whether streams have a run without a reset, with any processes that report
//! nothing: it returns a completion, or an event and the reason why there is none. `certificate`
//! returns the acts of a completion. `renumbered` makes the counts of streams small.
#![tactic(auto)]

mod additions;
mod answer;
mod bounds;
mod certificates;
mod decision;
mod judge;

pub use answer::{Answer, Certificate, CertificateFault, CompleteFault, Never};
pub use certificates::certificate;
pub use decision::complete;
pub use lack_needs::{Completion, is_marked, renumbered, with_silent};
