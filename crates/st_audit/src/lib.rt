//! The auditor: finds a certificate for collected streams, or an event and a reason.
//!
//! It builds acts from the streams, their pairing and their order, and compares them as the
//! checker does, which accepts each certificate. It knows nothing of text.
#![tactic(auto)]

mod auditing;
mod building;
mod construction;
mod finding;
pub mod laws;

pub use auditing::{audit, unfit_by};
pub use building::told_acts;
pub use finding::{AuditFault, Finding, Reason};
