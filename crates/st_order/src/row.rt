//! Rows: each item with its key, computed once.

ghost use Rattle.std.specs.Prelude.{◌≡◌, ◌++◌, Some, slice_get, count_by, IfOk, OnOk};
ghost use Rattle.st_core.specs.Streams.{events_of, IsStreams};
ghost use Rattle.st_pair.specs.Links.{IsPairing};
ghost use Rattle.st_order.specs.Items.{is_hidden};
ghost use Rattle.st_order.specs.Row.{hidden_row, item_of, reported_row, rows, rows_from};

use crate::item::Item;
use st_core::{Event, Kind, Pid, Streams};
use st_pair::{Pairing, Source};
use std::alloc::{AllocError, Global};

/// An item with its key. The key's fields come first, so the derived order is the key's; they are
/// laid out so that a row takes 32 bytes.
#[derive(Clone, Copy, Debug, PartialEq, Eq, PartialOrd, Ord)]
pub struct ItemRow {
    /// The height of an event, or a hidden send's own count.
    pub height: u64,
    /// 1 for a receive, else 0.
    pub rank: u8,
    /// The process that reported the event, or that sent.
    pub pid: Pid,
    /// True if the item is an event. A hidden send comes before its sender's events.
    pub reported: bool,
    /// The process in whose stream the event, or the hidden send's receive, is.
    pub reporter: Pid,
    /// The index of the event or the receive in that stream.
    pub index: u64,
}

impl ItemRow {
    /// Returns the item of the row.
    pub fn item(&self) -> Item
        ensures { result ≡ item_of self.now }
    {
        if self.reported {
            Item::Reported(self.reporter, self.index)
        } else {
            Item::Hidden(self.reporter, self.index)
        }
    }
}

fn reported_row(pid: Pid, index: u64, height: u64, event: &Event) -> ItemRow
    ensures { result ≡ reported_row pid index height event.now }
{
    let rank = match event.kind {
        Kind::Receive => 1,
        Kind::Send | Kind::Print => 0,
    };
    ItemRow {
        height,
        rank,
        pid,
        reported: true,
        reporter: pid,
        index,
    }
}

fn hidden_row(pid: Pid, index: u64, event: &Event) -> ItemRow
    ensures { result ≡ hidden_row pid index event.now }
{
    ItemRow {
        height: event.serial.this,
        rank: 0,
        pid: event.from,
        reported: false,
        reporter: pid,
        index,
    }
}

fn is_hidden(streams: &Streams, pairing: &Pairing, pid: Pid, index: u64, event: &Event) -> bool
    requires pairing { IsPairing streams.now pairing.now }
    requires event { slice_get (events_of streams.now pid) index ≡ Some event.now }
    ensures { result ≡ is_hidden streams.now event.now }
{
    match event.kind {
        Kind::Send | Kind::Print => false,
        Kind::Receive => match pairing.source(pid, index) {
            Some(Source::Hidden) => true,
            Some(Source::Event(..)) | None => false,
        },
    }
}

fn hidden_count(streams: &Streams, pairing: &Pairing, pid: Pid, events: &[Event]) -> usize
    requires pairing { IsPairing streams.now pairing.now }
    requires events { events.now ≡ events_of streams.now pid }
    ensures { result ≡ count_by (is_hidden streams.now) events.now }
{
    let mut count = 0;
    for (i, event) in events.iter().enumerate() {
        if is_hidden(streams, pairing, pid, i as u64, event) {
            count += 1;
        }
    }
    count
}

/// Counts all rows, so that `rows` makes room for them at once. No contract speaks of room.
fn room(streams: &Streams, pairing: &Pairing) -> usize
    requires { IsPairing streams.now pairing.now }
{
    let mut room = streams.total() as usize;
    for &pid in streams.pids() {
        room = room.saturating_add(hidden_count(streams, pairing, pid, streams.events(pid)));
    }
    room
}

/// Adds the rows of one process at the end.
fn put_rows(
    rows: &mut Vec<ItemRow>,
    streams: &Streams,
    pairing: &Pairing,
    pid: Pid,
    events: &[Event],
) -> Result<(), AllocError>
    requires pairing { IsPairing streams.now pairing.now }
    requires events { events.now ≡ events_of streams.now pid }
    ensures { OnOk result (rows.new.items
        ≡ rows.old.items ++ rows_from streams.now pid 0 0 events.now) }
{
    let mut height = 0;
    for (i, event) in events.iter().enumerate() {
        height = event.serial.this.max(height);
        if is_hidden(streams, pairing, pid, i as u64, event) {
            rows.push(hidden_row(pid, i as u64, event))?;
        }
        rows.push(reported_row(pid, i as u64, height, event))?;
    }
    Ok(())
}

/// Returns the rows of all items, place by place.
pub fn rows(alloc: Global, streams: &Streams, pairing: &Pairing) -> Result<Vec<ItemRow>, AllocError>
    requires { IsPairing streams.now pairing.now }
    ensures rows { IfOk result (λ made. made.items ≡ rows streams.now streams.now) }
    ensures streams { OnOk result (IsStreams streams.now) }
{
    let mut rows = Vec::with_capacity(alloc, room(streams, pairing))?;
    for &pid in streams.pids() {
        put_rows(&mut rows, streams, pairing, pid, streams.events(pid))?;
    }
    Ok(rows)
}
