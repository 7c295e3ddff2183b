//! Invents messages: their sends, with prevs.

ghost use Rattle.std.specs.Prelude.{◌≡◌, ◌++◌, [], length, vec_len, IfOk, IfSome, OnOk};
ghost use Rattle.std.specs.Option.{option_copied};
ghost use Rattle.lack_search.specs.Inventions.{prev_before, sent_as, without_messages, IsSendFor};
ghost use Rattle.lack_search.specs.Inventions.{LeavesPrevs};

use crate::asks::{Ask, GivenMessage, split_asks};
use crate::hidden_sends::{HiddenSend, split_hidden};
use crate::merged_events::MergedEvents;
use crate::senders::Turn;
use lack_needs::{Left, is_stamp};
use st_core::{Event, Kind, Label, Pid, Serial, Streams};
use std::alloc::{AllocError, Global};

/// The send of an invented message. It goes before the first event of its sender that has its
/// count or a greater one, or after all events.
#[derive(Clone, Copy)]
pub(crate) struct Invention {
    pub count: u64,
    pub prev: u64,
    pub sender: Pid,
    pub to: Pid,
    /// The label of the stamp that gets the message.
    pub label: Label,
    /// The number of the stamp among those that get messages.
    pub ask: u32,
}

impl Invention {
    pub(crate) fn sent(&self) -> Event
        ensures { result ≡ sent_as self.now }
    {
        Event {
            label: self.label,
            kind: Kind::Send,
            to: Some(self.to),
            from: self.sender,
            serial: Serial {
                prev: self.prev,
                this: self.count,
            },
            value: 0,
        }
    }
}

/// Splits the invented sends into those of the processes up to `pid` and those of the others.
pub(crate) fn split_inventions(inventions: &[Invention], pid: Pid) -> (&[Invention], &[Invention])
    ensures { result.0.now ++ result.1.now ≡ inventions.now }
{
    let count = inventions.partition_point(|invention| invention.sender <= pid);
    inventions.split_at(count)
}

/// Returns the prev of an invented send before an event. It is what the events before leave, so
/// that the send needs no message; or the event's own prev, if that lies between the clock and the
/// send's count: then the trace of the event begins before the send, and the event needs no
/// message either.
fn prev_before(left: Left, count: u64, next: Option<&Event>) -> u64
    ensures { result ≡ prev_before left count (option_copied next.entry) }
{
    match next {
        Some(event)
            if is_stamp(event) && left.greatest <= event.serial.prev && event.serial.prev < count =>
            { event.serial.prev }
        _ => left.prev,
    }
}

/// The walk over the events of a process that finds the prevs of its invented sends.
#[derive(Drop)]
struct Inventor<'a> {
    /// The sends that have no prev yet.
    inventions: &'a [Invention],
    /// The greatest count and the prev that the events so far leave.
    left: Left,
    /// The prevs of all sends so far.
    prevs: Vec<u64>,
}

impl Inventor<'_> {
    /// Finds the prevs of the sends before the next event, or of all that are left if there is
    /// none.
    fn come_to(&mut self, next: Option<&Event>) -> Result<(), AllocError>
        ensures prevs { OnOk result (LeavesPrevs self.old self.new) }
        ensures all { next.entry ≡ None → OnOk result (self.new.inventions.now ≡ []) }
    {
        while let Some((invention, others)) = self.inventions.split_first() {
            let count = invention.count;
            if next.is_some_and(|event| event.serial.this < count) {
                return Ok(());
            }
            let prev = prev_before(self.left, count, next);
            self.prevs.push(prev)?;
            self.left = Left {
                greatest: self.left.greatest.max(count),
                prev,
            };
            self.inventions = others;
        }
        Ok(())
    }

    fn walk(&mut self, mut events: MergedEvents<'_>) -> Result<(), AllocError>
        ensures prevs { OnOk result (LeavesPrevs self.old self.new) }
        ensures all { OnOk result (self.new.inventions.now ≡ []) }
    {
        while let Some(next) = events.take_next() {
            self.come_to(Some(&next.event))?;
            self.left = self.left.after(&next.event);
        }
        self.come_to(None)
    }
}

/// Returns the prevs of invented sends, which come by sender and count. A process that the streams
/// don't list sends all its messages with prev 0.
fn prevs_of(
    alloc: Global,
    streams: &Streams,
    hidden: &[HiddenSend],
    fed: &[Ask],
    inventions: &[Invention],
) -> Result<Vec<u64>, AllocError>
    ensures { IfOk result (λ prevs. vec_len prevs ≡ length inventions.now) }
{
    let mut inventor = Inventor {
        inventions: &[],
        left: Left::by_none(),
        prevs: Vec::new(alloc),
    };
    let mut hidden_left = hidden;
    let mut fed_left = fed;
    let mut left = inventions;
    for &pid in streams.pids() {
        let (own_hidden, later_hidden) = split_hidden(hidden_left, pid);
        let (own_fed, later_fed) = split_asks(fed_left, pid);
        let (sends, later) = split_inventions(left, pid);
        let others = sends.partition_point(|invention| invention.sender < pid);
        let known = inventor.prevs.len().saturating_add(others);
        inventor.prevs.resize(known, 0)?;
        inventor.inventions = &sends[others..];
        inventor.left = Left::by_none();
        if others < sends.len() {
            let events = streams.events(pid);
            inventor.walk(MergedEvents::new(streams, events, own_hidden, own_fed))?;
        }
        hidden_left = later_hidden;
        fed_left = later_fed;
        left = later;
    }
    let Inventor { mut prevs, .. } = inventor;
    prevs.resize(inventions.len(), 0)?;
    Ok(prevs)
}

/// Gives the invented sends, and the stamps that get their messages, their prevs, which were 0 so
/// far.
fn set_prevs(sends: &mut [Invention], fed: &mut [Ask], prevs: &[u64])
    ensures { without_messages fed.new ≡ without_messages fed.old }
{
    for (number, &prev) in prevs.iter().enumerate() {
        if prev != 0 && number < sends.len() {
            sends[number].prev = prev;
            let sender = sends[number].sender;
            let place = sends[number].ask as usize;
            if place < fed.len() {
                fed[place].message = GivenMessage::Invented(sender, prev);
            }
        }
    }
}

/// Gives the stamp whose turn it is an invented message with prev 0, and returns the send.
fn give(fed: &mut [Ask], turn: Turn, sender: Pid) -> Option<Invention>
    ensures send { IfSome result (IsSendFor turn sender) }
    ensures stamps { without_messages fed.new ≡ without_messages fed.old }
{
    let place = turn.ask as usize;
    if place >= fed.len() {
        return None;
    }
    fed[place].message = GivenMessage::Invented(sender, 0);
    Some(Invention {
        count: turn.count,
        prev: 0,
        sender,
        to: fed[place].process,
        label: fed[place].label,
        ask: turn.ask,
    })
}

/// Gives each stamp whose turn it is a message of its sender, and returns the sends, with prev 0.
fn give_all(
    alloc: Global,
    turns: &[Turn],
    senders: &[Pid],
    fed: &mut [Ask],
) -> Result<Vec<Invention>, AllocError>
    ensures { OnOk result (without_messages fed.new ≡ without_messages fed.old) }
{
    let mut sends = Vec::with_capacity(alloc, turns.len())?;
    for (turn, sender) in turns.iter().zip(senders) {
        if let Some(send) = give(fed, *turn, *sender) {
            sends.push(send)?;
        }
    }
    Ok(sends)
}

/// Gives each need that is left a message of its sender, and returns the sends, by sender and
/// count.
pub(crate) fn invent(
    alloc: Global,
    streams: &Streams,
    hidden: &[HiddenSend],
    fed: &mut [Ask],
    turns: &[Turn],
    senders: &[Pid],
) -> Result<Vec<Invention>, AllocError>
    ensures { OnOk result (without_messages fed.new ≡ without_messages fed.old) }
{
    let mut sends = give_all(alloc, turns, senders, fed)?;
    if !sends.is_sorted_by_key(|send| send.sender) {
        sends.sort_by_key(|send| send.sender)?;
    }
    let prevs = prevs_of(alloc, streams, hidden, fed, &sends)?;
    set_prevs(&mut sends, fed, &prevs);
    Ok(sends)
}
