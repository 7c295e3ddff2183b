//! One order of the events and hidden sends of all processes, and lists of them by label.
//!
//! Each event is an item, and so is each hidden send, which is the unreported send of a reported
//! receive. `order` lists all items by rising key: if a run without a reset reports the streams,
//! nothing comes before its cause, and the list depends on the streams alone, however many threads
//! sort it. `by_label` splits a list of items by label. This crate takes the pairing that
//! `st_pair` makes, and knows neither acts nor text.
#![tactic(auto)]

mod item;
mod labels;
pub mod laws;
mod row;
mod sorting;

pub use item::Item;
pub use labels::by_label;
pub use sorting::order;
