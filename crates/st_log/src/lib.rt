//! The log of one process: the entries of the acts that touched it, in order and in little memory;
//! and lists of acts with their replies.
//!
//! A contract sees a log as the list of its entries. A log takes entries of any acts with any
//! ranks: which ones it should have is up to the caller.
#![tactic(auto)]

mod calls;
mod entry;
mod iter;
mod log;
mod row;
mod same;
mod traced_act;
mod wide;

pub use calls::CallLog;
pub use entry::Entry;
pub use iter::{Calls, Entries};
pub use log::Log;
pub use same::{is_call, is_same_entry};
pub use wide::is_wide;
