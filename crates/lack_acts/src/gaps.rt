//! Gaps: the counts that a process passes unreported before a send or print.

ghost use Rattle.std.specs.Prelude.{◌≡◌, true, All, OnOk, IfOk, Some, slice_get};
ghost use Rattle.st_core.specs.Run.{pids_of};
ghost use Rattle.st_pair.specs.Places.{is_stamp};
ghost use Rattle.lack_acts.specs.Gaps.{opens_trace, entered, entry, gains_by};
ghost use Rattle.lack_acts.specs.Gaps.{gap_before, serial_at};
ghost use Rattle.lack_acts.specs.Gaps.{target, IsGapIn};

use crate::tallies::missing_before;
use lack_needs::{Left, is_stamp};
use st_core::{Event, Label, Pid, Serial, Streams};
use std::alloc::{AllocError, Global};

/// The acts that a message takes besides its send, which replaces a silent print: its receive, and
/// changes of the tokens of both processes.
pub(crate) const MESSAGE_ACTS: u64 = 4;

/// The counts that a process passes unreported before a send or print.
#[derive(Clone, Copy)]
pub(crate) struct Gap {
    /// The process, by its place in the streams.
    pub process: usize,
    /// The index of the send or print.
    pub index: usize,
    /// The label of the send or print.
    pub label: Label,
    /// The serial of the send or print.
    pub serial: Serial,
    /// The greatest count and the prev that the events before leave.
    pub left: Left,
    /// Whether the event right before the send or print is a receive.
    is_behind_receive: bool,
    /// Whether a waiting message was found for the gap.
    pub is_served: bool,
    /// The count above which the process passes all counts one by one: that of the message that it
    /// takes, else the greatest count before.
    pub start: u64,
    /// The prev of a send right above the start.
    prev: u64,
}

impl Gap {
    /// Returns the gap before a send or print whose process takes no message.
    pub(crate) fn before(
        process: usize,
        index: usize,
        label: Label,
        serial: Serial,
        left: Left,
        is_behind_receive: bool,
    ) -> Gap
        ensures { result ≡ gap_before process index label serial left is_behind_receive }
    {
        Gap {
            process,
            index,
            label,
            serial,
            left,
            is_behind_receive,
            is_served: false,
            start: left.greatest,
            prev: left.prev,
        }
    }

    /// Returns whether the send or print begins a new trace.
    pub(crate) fn opens_trace(&self) -> bool
        ensures { result ≡ opens_trace self.now }
    {
        self.serial.prev != self.left.prev && self.serial.prev >= self.left.greatest
    }

    /// Returns the greatest count of a message after which the send or print can still come;
    /// `None` if the process can take no message, or took a waiting one.
    pub(crate) fn target(&self) -> Option<u64>
        ensures { result ≡ target self.now }
    {
        if self.is_served {
            return None;
        }
        if self.opens_trace() {
            return Some(self.serial.prev);
        }
        if self.is_behind_receive {
            return Some(self.serial.this.saturating_sub(1));
        }
        None
    }

    /// Returns the index of the event before which the process takes the message.
    pub(crate) fn entry(&self) -> usize
        ensures { result ≡ entry self.now }
    {
        if self.opens_trace() {
            self.index
        } else {
            self.index.saturating_sub(1)
        }
    }

    /// Returns whether a message with this count saves more than half of the acts.
    pub(crate) fn gains_by(&self, count: u64) -> bool
        ensures { result ≡ gains_by self.now count }
    {
        let top = self.serial.this.saturating_sub(1);
        let half = top.saturating_sub(self.left.greatest) / 2;
        top.saturating_sub(count) < half.saturating_sub(MESSAGE_ACTS)
    }

    /// Lets the process take a message with this count.
    pub(crate) fn enter(&mut self, count: u64)
        ensures { self.new ≡ entered self.old count }
    {
        self.start = count;
        if self.opens_trace() {
            self.prev = count;
        }
    }

    /// Returns the serial of a send with this count, which the process passes.
    pub(crate) fn serial_at(&self, count: u64) -> Serial
        ensures { result ≡ serial_at self.now count }
    {
        let prev = if self.opens_trace() && count > self.serial.prev {
            self.serial.prev
        } else {
            self.prev
        };
        Serial { prev, this: count }
    }
}

/// Returns whether more counts than `most` are missing before the event, or it begins a new trace.
fn is_noted(gap: &Gap, event: &Event, most: u64) -> bool
    ensures { result ≡ true → is_stamp event.now ≡ true }
{
    is_stamp(event) && (missing_before(gap.left, event) > most || gap.opens_trace())
}

/// Notes the gaps of a process with more missing counts than `most`, or that end in a new trace.
fn note_gaps(
    gaps: &mut Vec<Gap>,
    streams: &Streams,
    process: usize,
    pid: Pid,
    most: u64,
) -> Result<(), AllocError>
    requires listed { slice_get (pids_of streams.now) process ≡ Some pid }
    requires gaps { All (IsGapIn streams.now) gaps.old.items }
    ensures { OnOk result (All (IsGapIn streams.now) gaps.new.items) }
{
    let mut left = Left::by_none();
    let mut is_behind_receive = false;
    for (index, event) in streams.events(pid).iter().enumerate() {
        let Event { label, serial, .. } = *event;
        let gap = Gap::before(process, index, label, serial, left, is_behind_receive);
        if is_noted(&gap, event, most) {
            gaps.push(gap)?;
        }
        left = left.after(event);
        is_behind_receive = !is_stamp(event);
    }
    Ok(())
}

/// Returns the gaps of all processes with more missing counts than `most`, or that end in a new
/// trace.
pub(crate) fn gaps_of(alloc: Global, streams: &Streams, most: u64) -> Result<Vec<Gap>, AllocError>
    ensures { IfOk result (λ gaps. All (IsGapIn streams.now) gaps.items) }
{
    let mut gaps = Vec::new(alloc);
    for (process, &pid) in streams.pids().iter().enumerate() {
        note_gaps(&mut gaps, streams, process, pid, most)?;
    }
    Ok(gaps)
}
