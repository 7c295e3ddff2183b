//! Stray messages: invented ones whose sends are among the last events of their process. Takes
//! them out of marked streams.

ghost use Rattle.std.specs.Prelude.{◌≡◌, ◌<◌, [], true, false, IfOk, IfSome, OnOk, vec_len};
ghost use Rattle.st_plan.specs.Marks.{told_events};
ghost use Rattle.lack_needs.specs.Completions.{marked_with, wholes_with};
ghost use Rattle.lack_acts.specs.Missing.{is_untold_send, missing_at_end, missing_with};
ghost use Rattle.lack_acts.specs.Strays.{may_save, AreStrays};
ghost use Rattle.lack_acts.specs.Told.{told_of, TellsAs};

use crate::marked_streams::{MarkedDraft, MarkedEvent, MarkedStreams, is_told};
use crate::tallies::missing_before;
use lack_needs::{Left, is_marked, marks_at};
use st_core::{Event, Kind, Label, Pid, Sequence, Streams};
use st_pair::{PairFault, Pairing, pair};
use std::alloc::{AllocError, Global};

/// An invented message whose send is among the last events of its process.
#[derive(Clone, Copy, PartialEq, Eq, PartialOrd, Ord)]
pub(crate) struct Stray {
    /// The count of the message.
    pub count: u64,
    /// The label of the message.
    pub label: Label,
    /// The receiver, by its place.
    pub to: usize,
    /// The index, among the events that stay, of the event before which the message is received.
    pub entry: usize,
}

/// An event that is taken out: the send or the receive of a stray message.
#[derive(Clone, Copy, PartialEq, Eq, PartialOrd, Ord)]
struct Removal {
    process: usize,
    index: usize,
    /// The message of a receive, by its place among the stray ones; `None` for a send.
    message: Option<usize>,
}

fn is_untold_send(event: &Event, is_told: bool) -> bool
    ensures { result ≡ is_untold_send (record { event = event.now; told = is_told }) }
{
    match event.kind {
        Kind::Send => !is_told,
        Kind::Receive | Kind::Print => false,
    }
}

/// Returns how many counts are missing before the untold sends at the end, after one more event.
fn missing_with(missing: u64, left: Left, event: &Event, is_told: bool) -> u64
    ensures { result ≡ missing_with missing left (record { event = event.now; told = is_told }) }
{
    if is_untold_send(event, is_told) {
        missing.saturating_add(missing_before(left, event))
    } else {
        0
    }
}

/// Returns how many counts are missing before the untold sends that end a process.
fn missing_at_end(events: &[Event], marks: &[bool]) -> u64
    ensures { result ≡ missing_at_end 0 [] (marked_with events.now marks.now) }
{
    let mut left = Left::by_none();
    let mut missing: u64 = 0;
    for (index, event) in events.iter().enumerate() {
        missing = missing_with(missing, left, event, is_marked(marks, index));
        left = left.after(event);
    }
    missing
}

/// Returns whether some process seems to pass counts for invented messages alone. This needs no
/// pairing.
pub(crate) fn may_save(streams: &Streams, marks: &[Sequence<bool>]) -> bool
    ensures { result ≡ may_save (wholes_with streams.now marks.now) }
{
    for (place, &pid) in streams.pids().iter().enumerate() {
        if missing_at_end(streams.events(pid), marks_at(marks, place)) > 0 {
            return true;
        }
    }
    false
}

/// The stray messages, and the events to take out.
#[derive(Drop)]
pub(crate) struct Strays {
    pub strays: Vec<Stray>,
    removals: Vec<Removal>,
}

impl Strays {
    /// Notes the message of an untold send. Returns false if its receive is told, or if there is
    /// none.
    fn note(
        &mut self,
        streams: &Streams,
        marks: &[Sequence<bool>],
        pairing: &Pairing,
        process: usize,
        pid: Pid,
        index: usize,
    ) -> Result<bool, AllocError>
        requires { AreStrays streams.now self.old }
        ensures { OnOk result (AreStrays streams.now self.new) }
    {
        let Some((receiver, place)) = pairing.receiver(pid, index as u64) else {
            return Ok(false);
        };
        let Some(to) = streams.place_of(receiver) else {
            return Ok(false);
        };
        let Some(event) = streams.event(pid, index as u64) else {
            return Ok(false);
        };
        if is_told(streams, marks, receiver, place) {
            return Ok(false);
        }
        let message = Some(self.strays.len());
        self.strays.push(Stray {
            count: event.serial.this,
            label: event.label,
            to,
            entry: 0,
        })?;
        self.removals.push(Removal {
            process,
            index,
            message: None,
        })?;
        self.removals.push(Removal {
            process: to,
            index: place as usize,
            message,
        })?;
        Ok(true)
    }

    /// Notes the stray messages of a process.
    fn note_process(
        &mut self,
        streams: &Streams,
        marks: &[Sequence<bool>],
        pairing: &Pairing,
        process: usize,
        pid: Pid,
    ) -> Result<(), AllocError>
        requires { AreStrays streams.now self.old }
        ensures { OnOk result (AreStrays streams.now self.new) }
    {
        let own = marks_at(marks, process);
        for (index, event) in streams.events(pid).iter().enumerate().rev() {
            if !is_untold_send(event, is_marked(own, index)) {
                return Ok(());
            }
            if !self.note(streams, marks, pairing, process, pid, index)? {
                return Ok(());
            }
        }
        Ok(())
    }

    /// Notes the stray messages of all processes.
    fn note_all(
        &mut self,
        streams: &Streams,
        marks: &[Sequence<bool>],
        pairing: &Pairing,
    ) -> Result<(), AllocError>
        requires { AreStrays streams.now self.old }
        ensures { OnOk result (AreStrays streams.now self.new) }
    {
        for (process, &pid) in streams.pids().iter().enumerate() {
            self.note_process(streams, marks, pairing, process, pid)?;
        }
        Ok(())
    }

    /// Returns whether the removal takes the event out. A told event stays.
    fn is_removed(&self, place: usize, process: usize, index: usize, is_told: bool) -> bool
        ensures untold { result ≡ true → is_told ≡ false }
        ensures there { result ≡ true → place < vec_len self.now.removals }
    {
        match self.removals.get(place) {
            None => false,
            Some(removal) => !is_told && removal.process == process && removal.index == index,
        }
    }

    /// Notes, if the removal is that of a receive, that its message is received before the event
    /// that stays at `entry`.
    fn note_entry(&mut self, place: usize, entry: usize)
        ensures removals { self.new.removals ≡ self.old.removals }
        ensures strays { vec_len self.new.strays ≡ vec_len self.old.strays }
    {
        let message = self.removals.get(place).and_then(|removal| removal.message);
        if let Some(number) = message {
            if let Some(stray) = self.strays.get_mut(number) {
                stray.entry = entry;
            }
        }
    }

    /// Returns the events of a process that stay: all but the untold ones that are taken out.
    /// Takes removals from `first` on, and returns the place of the first that is another
    /// process's.
    fn kept(
        &mut self,
        alloc: Global,
        events: &[Event],
        marks: &[bool],
        process: usize,
        first: usize,
    ) -> Result<(Vec<MarkedEvent>, usize), AllocError>
        ensures { IfOk result (λ stay. told_of stay.0.items
            ≡ told_events (marked_with events.now marks.now)) }
    {
        let mut stay = Vec::new(alloc);
        let mut next = first;
        for (index, event) in events.iter().enumerate() {
            let is_told = is_marked(marks, index);
            if self.is_removed(next, process, index, is_told) {
                self.note_entry(next, stay.len());
                next = next.saturating_add(1);
            } else {
                stay.push(MarkedEvent {
                    event: *event,
                    is_told,
                })?;
            }
        }
        Ok((stay, next))
    }

    /// Takes the stray messages out of the marked streams; `None` if a pid that an event names
    /// isn't listed.
    pub(crate) fn keep(
        &mut self,
        alloc: Global,
        streams: &Streams,
        marks: &[Sequence<bool>],
    ) -> Result<Option<MarkedStreams>, AllocError>
        ensures { IfOk result (λ some. IfSome some (TellsAs (wholes_with streams.now marks.now))) }
    {
        self.removals.sort()?;
        let mut draft = MarkedDraft::new(alloc);
        let mut next: usize = 0;
        for (process, &pid) in streams.pids().iter().enumerate() {
            let events = streams.events(pid);
            let own = marks_at(marks, process);
            let stay = self.kept(alloc, events, own, process, next)?;
            let whole = stay.0.as_slice();
            draft.add(alloc, pid, whole)?;
            next = stay.1;
        }
        Ok(draft.close())
    }
}

/// Returns the stray messages of marked streams; none if the streams can't be paired.
pub(crate) fn strays_of(
    alloc: Global,
    streams: &Streams,
    marks: &[Sequence<bool>],
) -> Result<Strays, AllocError>
    ensures { IfOk result (AreStrays streams.now) }
{
    let mut strays = Strays {
        strays: Vec::new(alloc),
        removals: Vec::new(alloc),
    };
    match pair(alloc, streams) {
        Ok(pairing) => strays.note_all(streams, marks, &pairing)?,
        Err(PairFault::Memory) => return Err(AllocError),
        Err(_) => {}
    }
    Ok(strays)
}
