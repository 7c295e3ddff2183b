//! The pictures of collected streams: the report of what the auditor found, and the chart of one
//! label, a picture in text of which message caused which.
//!
//! Both are defined byte for byte in `specs/`. A report goes through a buffer on the stack, and a
//! chart through one on the heap. This crate judges nothing: findings, order and causes come from
//! the crates below.
#![tactic(auto)]

mod charted_item;
mod charting;
mod fault;
mod lanes;
mod marks;
mod page;
mod reporting;
mod sheet;
mod words;

pub use charting::chart;
pub use fault::ChartFault;
pub use reporting::{report, write_event, write_place_line};
pub use words::{put_place, put_place_after};
