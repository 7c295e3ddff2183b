//! The lines of all events and acts. One pass over the processes finds the line of each process's
//! first event, and that of the first act.

ghost use Rattle.std.specs.Prelude.{◌≡◌, ◌≢◌, ◌+◌, ◌<◌, ◌≤◌, ◌^◌, ℕ, Some, IfNone, IfOk, IfSome};
ghost use Rattle.std.specs.Prelude.{length};
ghost use Rattle.st_core.specs.declared.types.Pid.{Pid as PidValue};
ghost use Rattle.st_core.specs.Streams.{events_of};
ghost use Rattle.seqtool_commands.specs.KeptLines.{AreFirsts, first_line};
ghost use Rattle.seqtool_commands.specs.LineNumbers.{act_line_number_of, line_number_of};

use st_core::{Pid, Streams};
use std::alloc::{AllocError, Global};
use std::marker::Model;

/// The line of the first process's first event: the header and the process are above it.
const FIRST: u64 = 3;

/// Returns the line of the next process's first event, from that of a process and its number of
/// events.
fn first_behind(first: u64, events: u64) -> Result<u64, AllocError>
    ensures value { IfOk result (λ next. next ≡ first + events + 1) }
    ensures fits { IfOk result (λ next. next < 2 ^ 64) }
{
    // The lines of all events that memory holds stay in the range.
    first
        .checked_add(events)
        .and_then(|last| last.checked_add(1))
        .ok_or(AllocError)
}

/// Returns the line of each process's first event, and that of the first act.
fn all_firsts(alloc: Global, streams: &Streams) -> Result<(Vec<u64>, u64), AllocError>
    ensures { IfOk result (λ found. AreFirsts streams.now found.0.items found.1) }
{
    let mut first = FIRST;
    let mut firsts = Vec::new(alloc);
    for &pid in streams.pids() {
        firsts.push(first)?;
        first = first_behind(first, streams.len(pid))?;
    }
    Ok((firsts, first))
}

/// The lines of the events of streams, and of acts below them, in the text of a bundle. A contract
/// sees it as the streams. It borrows them, and keeps 8 bytes a process.
#[derive(Drop)]
pub struct LineNumbers<'a> {
    streams: &'a Streams,
    firsts: Vec<u64>,
    first_act: u64,
}

impl<'a> Model for LineNumbers<'a> {
    ghost use Rattle.std.specs.Prelude.{List};
    ghost use Rattle.st_core.specs.Run.{Stream};
    ghost use Rattle.seqtool_commands.specs.KeptLines.{AreFirsts};

    ghost Value = { List Stream };

    ghost view = { λ a. a.streams.now };

    ghost invariant = { λ a. AreFirsts a.streams.now a.firsts.items a.first_act };
}

impl<'a> LineNumbers<'a> {
    /// Finds the lines of streams. Fails only if memory runs out.
    pub fn new(alloc: Global, streams: &'a Streams) -> Result<Self, AllocError>
        ensures { IfOk result (λ numbers. numbers ≡ streams.now) }
    {
        let (firsts, first_act) = all_firsts(alloc, streams)?;
        Ok(LineNumbers {
            streams,
            firsts,
            first_act,
        })
    }

    /// Returns the line of a process's first event, or none if the process isn't listed.
    fn first(&self, pid: Pid) -> Option<u64>
        ensures value { result ≡ first_line 3 self.now pid }
        ensures fits { IfSome result
            (λ first. first + length (events_of self.now pid) < 2 ^ 64) }
    {
        match self.streams.place_of(pid) {
            None => None,
            Some(place) => Some(self.firsts[place]),
        }
    }

    /// Returns the line of a process's event, counted from 1, or none if there is no such event.
    #[tactic(auto, using(crate::proofs::LineFirsts::line_by))]
    pub fn line(&self, pid: Pid, index: u64) -> Option<u64>
        ensures { result ≡ line_number_of self.now pid index }
    {
        match self.first(pid) {
            None => None,
            Some(first) => {
                if index < self.streams.len(pid) {
                    Some(first + index)
                } else {
                    None
                }
            }
        }
    }

    /// Returns the line of an act, counted from 0, if the bundle has acts, or none if the number
    /// doesn't fit.
    pub fn act_line(&self, number: u64) -> Option<u64>
        ensures value { IfSome result (λ line. line ≡ act_line_number_of self.now number) }
        ensures missing { IfNone result (2 ^ 64 ≤ act_line_number_of self.now number) }
    {
        self.first_act.checked_add(number)
    }

    /// Returns the index of a process's event on a line, or none if the line is none of its
    /// events'.
    fn index_on(&self, pid: Pid, line: u64) -> Option<u64>
        ensures found { IfSome result (λ i. line_number_of self.now pid i ≡ Some line) }
        ensures missing { IfNone result ((i : ℕ) → line_number_of self.now pid i ≢ Some line) }
    {
        match self.first(pid) {
            None => None,
            Some(first) => {
                if first <= line && line - first < self.streams.len(pid) {
                    Some(line - first)
                } else {
                    None
                }
            }
        }
    }

    /// Returns the process and index of the event on a line, or none if the line is no event's.
    /// Its time grows as the number of processes does.
    pub fn place(&self, line: u64) -> Option<(Pid, u64)>
        ensures found { IfSome result (λ place.
            line_number_of self.now place.0 place.1 ≡ Some line) }
        ensures missing { IfNone result
            ((p : PidValue) (i : ℕ) → line_number_of self.now p i ≢ Some line) }
    {
        for &pid in self.streams.pids() {
            if let Some(index) = self.index_on(pid, line) {
                return Some((pid, index));
            }
        }
        None
    }
}
