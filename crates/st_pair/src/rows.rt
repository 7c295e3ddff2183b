//! The events that a filter chooses, each with its place and its line.

ghost use Rattle.std.specs.Prelude.{◌≡◌, ◌+◌, ◌++◌, length, IfOk, OnOk};
ghost use Rattle.st_pair.specs.Rows.{listed, row_of, listed_at};

use crate::filter::Filter;
use st_core::{Event, Pid, Streams};
use std::alloc::{AllocError, Global};

/// The line of the first process; above it is the header.
const FIRST_LINE: u64 = 2;

/// An event of a list, with its place and its line.
#[derive(Clone, Copy)]
pub struct Row {
    /// The process that reports the event.
    pub pid: Pid,
    /// The index of the event in the stream of its process, from 0.
    pub index: u64,
    /// The line of the text that has the event; the header is line 1.
    pub line: u64,
    /// The event.
    pub event: Event,
}

/// Returns `number + by`. The sum always fits, since memory holds the events that it counts.
fn further(number: u64, by: u64) -> Result<u64, AllocError>
    ensures { IfOk result (λ n. n ≡ number + by) }
{
    number.checked_add(by).ok_or(AllocError)
}

/// Adds a row for each of the events that the filter chooses. The first event is on line `first`.
fn add_rows(
    rows: &mut Vec<Row>,
    filter: &Filter,
    pid: Pid,
    first: u64,
    events: &[Event],
) -> Result<(), AllocError>
    ensures { OnOk result (rows.new.items
        ≡ rows.old.items ++ listed_at filter.now pid 0 first events.now) }
{
    let mut index: u64 = 0;
    let mut line = first;
    for event in events {
        if filter.chooses(pid, line, event) {
            rows.push(Row {
                pid,
                index,
                line,
                event: *event,
            })?;
        }
        index = further(index, 1)?;
        line = further(line, 1)?;
    }
    Ok(())
}

/// Returns a row for each event that the filter chooses, in the order of the text. Fails only if
/// memory runs out.
pub fn list(alloc: Global, streams: &Streams, filter: &Filter) -> Result<Vec<Row>, AllocError>
    ensures { IfOk result (λ rows. rows.items ≡ listed filter.now streams.now) }
{
    let mut rows = Vec::new(alloc);
    let mut line = FIRST_LINE;
    for &pid in streams.pids() {
        let events = streams.events(pid);
        let first = further(line, 1)?;
        add_rows(&mut rows, filter, pid, first, events)?;
        line = further(first, events.len() as u64)?;
    }
    Ok(rows)
}
