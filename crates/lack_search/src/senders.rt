//! Finds senders for the messages that must be invented.
//!
//! A process stamps each count at most once. So a need without a message gets one from a process
//! that doesn't stamp its count: a listed one, by rising pid, or else one that the streams don't
//! list.

ghost use Rattle.std.specs.Prelude.{◌≡◌, ◌*◌, ◌-◌, ◌%◌, ◌<◌, ◌^◌, length, min, true, vec_len, All};
ghost use Rattle.std.specs.Prelude.{Contains, IfOk, IfSome, OnOk};
ghost use Rattle.st_core.specs.Run.{pids_of};
ghost use Rattle.lack_search.specs.Senders.{may_have, AreAsked, AreTurnsOf, KeepsStreams};
ghost use Rattle.lack_search.specs.Unlisted.{AreUnlisted};

use crate::asks::{Ask, GivenMessage};
use crate::hidden_sends::HiddenSend;
use crate::short::short;
use crate::unlisted_pids::UnlistedPids;
use lack_needs::is_stamp;
use st_core::{Event, Pid, Streams};
use std::alloc::{AllocError, Global};

#[derive(Clone, Copy, PartialEq, Eq, PartialOrd, Ord)]
struct Stamp {
    count: u64,
    process: Pid,
}

/// The remainders of the counts that needs ask for. A stamp whose count has another remainder is
/// in no need's way, and is left out.
#[derive(Drop)]
struct Asked {
    /// Whether a need asks for a count with the remainder, by remainder. There are twice as many
    /// as needs, since most counts are lower than that.
    remainders: Vec<bool>,
}

impl Asked {
    fn of(alloc: Global, turns: &[Turn]) -> Result<Asked, AllocError>
        ensures { IfOk result (λ asked. vec_len asked.remainders
            ≡ min (length turns.now * 2) (2 ^ 64 - 1)) }
    {
        let mut asked = Asked {
            remainders: vec![in alloc; false; turns.len().saturating_mul(2)]?,
        };
        for turn in turns {
            let place = asked.place_of(turn.count);
            if place < asked.remainders.len() {
                asked.remainders[place] = true;
            }
        }
        Ok(asked)
    }

    fn place_of(&self, count: u64) -> usize
        ensures { 0 < vec_len self.now.remainders → result ≡ count % vec_len self.now.remainders }
    {
        let places = self.remainders.len() as u64;
        if places == 0 {
            return 0;
        }
        (count % places) as usize
    }

    fn may_have(&self, count: u64) -> bool
        ensures { result ≡ may_have self.now count }
    {
        let place = self.place_of(count);
        place < self.remainders.len() && self.remainders[place]
    }
}

/// Notes the stamps among the events of a process whose counts needs may ask for.
fn note_stamps(
    stamps: &mut Vec<Stamp>,
    asked: &Asked,
    process: Pid,
    events: &[Event],
) -> Result<(), AllocError>
    requires { AreAsked asked.now stamps.old.items }
    ensures { OnOk result (AreAsked asked.now stamps.new.items) }
{
    for event in events {
        let count = event.serial.this;
        if is_stamp(event) && asked.may_have(count) {
            stamps.push(Stamp { count, process })?;
        }
    }
    Ok(())
}

/// Returns the reported and hidden stamps whose counts needs may ask for, by count and process.
fn stamps_in_the_way(
    alloc: Global,
    streams: &Streams,
    hidden: &[HiddenSend],
    asked: &Asked,
) -> Result<Vec<Stamp>, AllocError>
    ensures { IfOk result (λ stamps. AreAsked asked.now stamps.items) }
{
    let mut stamps = Vec::new(alloc);
    for &pid in streams.pids() {
        note_stamps(&mut stamps, asked, pid, streams.events(pid))?;
    }
    for send in hidden {
        let count = send.event.serial.this;
        if asked.may_have(count) {
            stamps.push(Stamp {
                count,
                process: send.event.from,
            })?;
        }
    }
    stamps.sort()?;
    Ok(stamps)
}

/// Gives out senders for counts that never fall.
#[derive(Drop)]
struct Giver<'a> {
    streams: &'a Streams,
    /// The stamps whose counts needs may ask for, by count and process.
    stamps: Vec<Stamp>,
    /// The number of the next stamp to look at.
    stamp: usize,
    /// The count for which a sender was given out last.
    count: u64,
    /// The number of listed processes that were tried for the count.
    listed: usize,
    /// The number of unlisted processes that were given out for the count.
    others: usize,
    unlisted: UnlistedPids,
}

impl Giver<'_> {
    /// Returns whether the process stamps the count. Stamps are sorted by count and process, and
    /// callers ask in this order, so each search goes on where the last one ended.
    fn is_stamped(&mut self, count: u64, process: Pid) -> bool
        ensures stamped { result ≡ true
            → Contains self.old.stamps.items (record { count = count; process = process }) }
        ensures rest { KeepsStreams self.old self.new }
    {
        let wanted = Stamp { count, process };
        for number in self.stamp..self.stamps.len() {
            let stamp = self.stamps[number];
            if stamp >= wanted {
                return stamp == wanted;
            }
            self.stamp = number + 1;
        }
        false
    }

    fn next_listed(&mut self, count: u64) -> Option<Pid>
        ensures listed { IfSome result (Contains (pids_of self.old.streams.now)) }
        ensures rest { KeepsStreams self.old self.new }
    {
        let pids = self.streams.pids();
        for number in self.listed..pids.len() {
            self.listed = number + 1;
            if !self.is_stamped(count, pids[number]) {
                return Some(pids[number]);
            }
        }
        None
    }

    fn next(&mut self, count: u64) -> Result<Option<Pid>, AllocError>
        requires { AreUnlisted self.old.streams.now self.old.unlisted.pids.items }
        ensures unlisted { AreUnlisted self.old.streams.now self.new.unlisted.pids.items }
        ensures streams { self.new.streams ≡ self.old.streams }
    {
        if self.count != count {
            self.count = count;
            self.listed = 0;
            self.others = 0;
        }
        if let Some(pid) = self.next_listed(count) {
            return Ok(Some(pid));
        }
        let number = self.others;
        self.others = number.saturating_add(1);
        self.unlisted.nth(self.streams, number)
    }
}

/// A need without a message, which gets one in its turn.
#[derive(Clone, Copy)]
pub(crate) struct Turn {
    pub count: u64,
    /// The number of the need among the stamps that get messages.
    pub ask: u32,
}

/// The needs without a message, and the senders of their messages.
#[derive(Drop)]
pub(crate) struct Senders {
    /// The needs, by count, and those with one count in the order of the streams.
    pub turns: Vec<Turn>,
    pub senders: Vec<Pid>,
    /// The senders that the streams don't list, by rising pid.
    pub unlisted: Vec<Pid>,
}

/// Returns the needs without a message, by count, and those with one count in the order of the
/// stamps.
fn turns_of(alloc: Global, fed: &[Ask]) -> Result<Vec<Turn>, AllocError>
    ensures { IfOk result (λ turns. AreTurnsOf fed.now turns.items) }
{
    let mut turns = Vec::new(alloc);
    for (number, ask) in fed.iter().enumerate() {
        if ask.message == GivenMessage::Missing {
            turns.push(Turn {
                count: ask.count,
                ask: short(number),
            })?;
        }
    }
    if turns.is_sorted_by_key(|turn| turn.count) {
        return Ok(turns);
    }
    turns.sort_by_key(|turn| turn.count)?;
    Ok(turns)
}

/// Returns the senders for the needs. It also fails if no pid is left for one.
fn take_turns(alloc: Global, giver: &mut Giver<'_>, turns: &[Turn]) -> Result<Vec<Pid>, AllocError>
    requires { AreUnlisted giver.old.streams.now giver.old.unlisted.pids.items }
    ensures senders { IfOk result (λ senders. vec_len senders ≡ length turns.now) }
    ensures unlisted { AreUnlisted giver.old.streams.now giver.new.unlisted.pids.items }
{
    let mut senders = Vec::with_capacity(alloc, turns.len())?;
    for turn in turns {
        let Some(sender) = giver.next(turn.count)? else {
            return Err(AllocError);
        };
        senders.push(sender)?;
    }
    Ok(senders)
}

/// Finds a sender for each need without a message among the stamps, which come by process and
/// index. It takes as few unlisted processes as can send all messages, since each sends one
/// message of a count.
pub(crate) fn find_senders(
    alloc: Global,
    streams: &Streams,
    hidden: &[HiddenSend],
    fed: &[Ask],
) -> Result<Senders, AllocError>
    ensures turns { IfOk result (λ found. AreTurnsOf fed.now found.turns.items) }
    ensures senders { IfOk result (λ found. vec_len found.senders ≡ vec_len found.turns) }
    ensures unlisted { IfOk result (λ found. AreUnlisted streams.now found.unlisted.items) }
{
    let turns = turns_of(alloc, fed)?;
    let asked = Asked::of(alloc, &turns)?;
    let mut giver = Giver {
        streams,
        stamps: stamps_in_the_way(alloc, streams, hidden, &asked)?,
        stamp: 0,
        count: 0,
        listed: 0,
        others: 0,
        unlisted: UnlistedPids::new(alloc, streams),
    };
    drop(asked);
    let senders = take_turns(alloc, &mut giver, &turns)?;
    let Giver { unlisted, .. } = giver;
    let unlisted = unlisted.into_rising()?;
    Ok(Senders {
        turns,
        senders,
        unlisted,
    })
}
