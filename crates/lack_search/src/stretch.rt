//! Stretches: the receives of a process between two neighbouring reported stamps, and the
//! questions that the walk asks of them.
//!
//! The gaps of a stretch are the places among its receives, counted from 0: gap 0 comes before all
//! of them, and gap g right after the g-th.

ghost use Rattle.std.specs.Prelude.{◌≡◌, ◌+◌, ◌-◌, ◌≤◌, length, slice_index, vec_len, IfSome, OnOk};

use st_core::{Event, Label};
use std::alloc::{AllocError, Global};

/// The receives of a stretch, and the reported stamps at its ends.
#[derive(Clone, Copy)]
pub(crate) struct Stretch<'a> {
    /// The stamp before the stretch; `None` at the start of a process.
    pub before: Option<&'a Event>,
    pub receives: &'a [Event],
    /// The stamp after the stretch; `None` at the end of a process.
    pub stamp: Option<&'a Event>,
}

/// The distance from where a search ended within which the next one looks first.
const REACH: usize = 4;

/// Returns how many items pass. Those that pass come first, and are most often about as many as
/// `near`.
fn count_passing<T, F: Fn(&T) -> bool>(items: &[T], near: usize, passes: &F) -> usize
    requires { F.IsAlwaysCallable passes.now }
    ensures { result ≤ length items.now }
{
    let start = near.saturating_sub(REACH);
    let end = near.saturating_add(REACH);
    if start < end && end <= items.len() && passes(&items[start]) && !passes(&items[end - 1]) {
        return start + items[start..end].partition_point(|item| passes(item));
    }
    items.partition_point(|item| passes(item))
}

/// Tables of a stretch, so that each question about it takes a binary search at most, and mostly
/// less, since a search begins near where the last one ended. They are filled anew for each
/// stretch, so that their memory is taken once.
#[derive(Drop)]
pub(crate) struct GapTables {
    /// The clock at each gap: the greatest count that the process reported before it.
    clocks: Vec<u64>,
    /// The count of each receive and the gap after it, sorted.
    by_count: Vec<(u64, usize)>,
    /// The count and the label of each receive and the gap after it, sorted.
    by_label: Vec<(u64, Label, usize)>,
    /// The place at which the last search in each table ended.
    near_clock: usize,
    near_count: usize,
    near_label: usize,
    ghost gaps: { vec_len clocks ≤ vec_len by_count + 1 },
}

impl GapTables {
    pub(crate) fn new(alloc: Global) -> GapTables
        ensures { vec_len result.by_count ≡ 0 }
    {
        GapTables {
            clocks: Vec::new(alloc),
            by_count: Vec::new(alloc),
            by_label: Vec::new(alloc),
            near_clock: 0,
            near_count: 0,
            near_label: 0,
        }
    }

    fn add(&mut self, receive: &Event, clock: u64) -> Result<(), AllocError>
        ensures { OnOk result (vec_len self.new.by_count ≡ vec_len self.old.by_count + 1) }
    {
        let count = receive.serial.this;
        let gap = self.by_count.len().saturating_add(1);
        self.by_label.push((count, receive.label, gap))?;
        self.by_count.push((count, gap))?;
        self.clocks.push(clock)?;
        Ok(())
    }

    pub(crate) fn fill(&mut self, stretch: Stretch<'_>) -> Result<(), AllocError>
        ensures { OnOk result (vec_len self.new.by_count ≡ length stretch.entry.receives.now) }
    {
        self.clocks.clear();
        self.by_count.clear();
        self.by_label.clear();
        // No stamp is late, so the stamp before has the greatest count so far.
        let mut clock = match stretch.before {
            None => 0,
            Some(stamp) => stamp.serial.this,
        };
        self.clocks.push(clock)?;
        for receive in stretch.receives {
            clock = clock.max(receive.serial.this);
            self.add(receive, clock)?;
        }
        self.by_count.sort()?;
        self.by_label.sort()?;
        Ok(())
    }

    pub(crate) fn end(&self) -> usize
        ensures { result ≡ vec_len self.now.by_count }
    {
        self.by_count.len()
    }

    /// Returns the clock at a gap; 0 past the last one.
    pub(crate) fn clock(&self, gap: usize) -> u64
        ensures { result ≡ slice_index self.now.clocks.items gap }
    {
        if gap < self.clocks.len() {
            return self.clocks[gap];
        }
        0
    }

    /// Returns the last gap at which the clock is below the count; 0 if there is none.
    pub(crate) fn last_below(&mut self, count: u64) -> usize
        ensures gap { result ≤ vec_len self.new.by_count }
        ensures tables { self.new.by_count ≡ self.old.by_count }
    {
        let below = |clock: &u64| *clock < count;
        self.near_clock = count_passing(&self.clocks, self.near_clock, &below);
        self.near_clock.saturating_sub(1)
    }

    /// Returns the last gap at which the clock isn't above the count; 0 if there is none.
    pub(crate) fn last_up_to(&mut self, count: u64) -> usize
        ensures gap { result ≤ vec_len self.new.by_count }
        ensures tables { self.new.by_count ≡ self.old.by_count }
    {
        let up_to = |clock: &u64| *clock <= count;
        self.near_clock = count_passing(&self.clocks, self.near_clock, &up_to);
        self.near_clock.saturating_sub(1)
    }

    /// Returns how many rows of `by_count` come up to this count and gap.
    fn rows_up_to(&mut self, count: u64, gap: usize) -> usize
        ensures rows { result ≤ vec_len self.new.by_count }
        ensures tables { self.new.by_count ≡ self.old.by_count }
    {
        let up_to = |row: &(u64, usize)| *row <= (count, gap);
        self.near_count = count_passing(&self.by_count, self.near_count, &up_to);
        self.near_count
    }

    /// Returns the last gap right after a receive with this count, up to a limit.
    pub(crate) fn last_after(&mut self, count: u64, limit: usize) -> Option<usize>
        ensures gap { IfSome result (λ gap. gap ≤ limit) }
        ensures tables { self.new.by_count ≡ self.old.by_count }
    {
        let rows = self.rows_up_to(count, limit);
        if rows == 0 {
            return None;
        }
        let row = self.by_count[rows - 1];
        if row.0 == count && row.1 <= limit {
            return Some(row.1);
        }
        None
    }

    /// Returns the first gap right after a receive with this count, past a gap and up to a limit.
    pub(crate) fn next_after(&mut self, count: u64, gap: usize, limit: usize) -> Option<usize>
        ensures gap { IfSome result (λ next. next ≤ limit) }
        ensures tables { self.new.by_count ≡ self.old.by_count }
    {
        let rows = self.rows_up_to(count, gap);
        if rows >= self.by_count.len() {
            return None;
        }
        let row = self.by_count[rows];
        if row.0 == count && row.1 <= limit {
            return Some(row.1);
        }
        None
    }

    /// Returns the first gap right after a receive with this count and label, past a gap and up to
    /// a limit.
    pub(crate) fn next_of_label(
        &mut self,
        count: u64,
        label: Label,
        gap: usize,
        limit: usize,
    ) -> Option<usize>
        ensures gap { IfSome result (λ next. next ≤ limit) }
        ensures tables { self.new.by_count ≡ self.old.by_count }
    {
        let up_to = |row: &(u64, Label, usize)| *row <= (count, label, gap);
        self.near_label = count_passing(&self.by_label, self.near_label, &up_to);
        if self.near_label >= self.by_label.len() {
            return None;
        }
        let row = self.by_label[self.near_label];
        if row.0 == count && row.1 == label && row.2 <= limit {
            return Some(row.2);
        }
        None
    }
}
