//! The sends and prints of each process, by their counts, which rise.

ghost use Rattle.std.specs.Prelude.{◌≡◌, ◌==◌, None, map, find, option_and_then, option_map};
ghost use Rattle.std.specs.Prelude.{slice_get, IfOk, IfSome};
ghost use Rattle.st_pair.specs.Pairing.{not_rising, stamp_of};
ghost use Rattle.st_pair.specs.Places.{first};
ghost use Rattle.st_pair.specs.Tables.{row_under, rows_in, stamp_rows, AreRising, AreStamps};

use st_core::{Event, Kind, Pid, Sequence, Streams};
use std::alloc::{AllocError, Global};
use std::marker::Model;

/// The number of rows, from the one after the row found last, that are searched first. A receiver
/// mostly takes a process's messages in order, with a few sends to others between them, so the row
/// is near. Near rows lie side by side in memory; those that a binary search of all reads don't.
const NEAR: usize = 128;

/// A send or print of a process.
#[derive(Clone, Copy, Debug)]
pub struct StampRow {
    /// Its count.
    count: u64,
    /// Its index among the events.
    index: u64,
}

/// The sends and prints of each process, by the process's place.
#[derive(Debug, Drop)]
pub struct Stamps {
    rows: Vec<Sequence<StampRow>>,

    // For each process the number of the row after the one that was found last: messages are
    // mostly received in the order in which they were sent. Only time depends on it.
    next: Vec<usize>,
}

impl Model for Stamps {
    ghost use Rattle.std.specs.Prelude.{List};
    ghost use Rattle.st_pair.specs.declared.stamp_table.StampRow.{StampRow};

    ghost Value = { List (List StampRow) };

    ghost view = { λ a. a.rows.items };
}

impl Stamps {
    /// Collects the sends and prints of streams in which the counts of each process rise.
    pub fn of(alloc: Global, streams: &Streams) -> Result<Stamps, AllocError>
        requires { first (not_rising streams.now) streams.now ≡ None }
        ensures { IfOk result (AreStamps streams.now) }
    {
        let next = vec![in alloc; 0usize; streams.pids().len()]?;
        let rows = all_rows(alloc, streams)?;
        Ok(Stamps { rows, next })
    }

    /// Returns the index of the send or print of `from` with the count `this`.
    pub fn find(&mut self, streams: &Streams, from: Pid, this: u64) -> Option<u64>
        requires { AreStamps streams.now self.old }
        ensures found { result ≡ option_map (λ f. f.0) (stamp_of streams.now from this) }
        ensures same { self.new ≡ self.old }
    {
        let Some(place) = streams.place_of(from) else {
            return None;
        };
        let next = self.next.get(place).copied().unwrap_or(0);
        let Some((number, row)) = find_row(self.rows[place].as_slice(), next, this) else {
            return None;
        };
        if let Some(next) = self.next.get_mut(place) {
            *next = number.saturating_add(1);
        }
        Some(row.index)
    }
}

/// Returns row `number`, if it has the count.
fn row_at(rows: &[StampRow], number: usize, count: u64) -> Option<StampRow>
    ensures { result ≡ option_and_then (row_under count) (slice_get rows.now number) }
{
    match rows.get(number) {
        None => None,
        Some(row) => { if row.count == count { Some(*row) } else { None } }
    }
}

/// Returns the row with the count and its number, if it is among the `width` rows from `start` on,
/// a row comes after these, and their counts rise.
fn row_near(rows: &[StampRow], start: usize, width: usize, count: u64) -> Option<(usize, StampRow)>
    ensures { IfSome result (λ found.
        Some found.1 ≡ option_and_then (row_under count) (slice_get rows.now found.0)) }
{
    let end = start.saturating_add(width);
    let first = rows.get(start)?;
    let behind = rows.get(end)?;
    if first.count > count || behind.count < count {
        return None;
    }
    let number = start + rows[start..end].partition_point(|row| row.count < count);
    let row = row_at(rows, number, count)?;
    Some((number, row))
}

/// Returns the row with the count and its number. It tries row `next`, then the rows soon after
/// it, then a binary search of all.
fn find_row(rows: &[StampRow], next: usize, count: u64) -> Option<(usize, StampRow)>
    requires { AreRising rows.now }
    ensures { option_map (λ found. found.1) result ≡ find (λ r. r.count == count) rows.now }
{
    if let Some(row) = row_at(rows, next, count) {
        return Some((next, row));
    }
    if let Some(found) = row_near(rows, next, NEAR, count) {
        return Some(found);
    }
    let number = rows.partition_point(|row| row.count < count);
    match row_at(rows, number, count) {
        None => None,
        Some(row) => Some((number, row)),
    }
}

/// Returns the sends and prints among `events`.
fn rows_of(alloc: Global, events: &[Event]) -> Result<Vec<StampRow>, AllocError>
    ensures { IfOk result (λ rows. rows.items ≡ stamp_rows 0 events.now) }
{
    let mut rows = Vec::new(alloc);
    for (i, event) in events.iter().enumerate() {
        match event.kind {
            Kind::Receive => {}
            Kind::Send | Kind::Print => rows.push(StampRow {
                count: event.serial.this,
                index: i as u64,
            })?,
        }
    }
    Ok(rows)
}

/// Returns the sends and prints of all processes.
fn all_rows(alloc: Global, streams: &Streams) -> Result<Vec<Sequence<StampRow>>, AllocError>
    ensures { IfOk result (λ rows. rows.items ≡ map rows_in streams.now) }
{
    let mut all = Vec::new(alloc);
    for &pid in streams.pids() {
        let rows = rows_of(alloc, streams.events(pid))?;
        all.push(Sequence::from_vec(rows))?;
    }
    Ok(all)
}
