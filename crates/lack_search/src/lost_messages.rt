//! Messages that were sent and never received, so that their receives were lost.
//!
//! A reported send without a reported receive is given to a stamp of its receiver that asks for
//! its count: first to needs, which can't do without a message. If all sends were reported, there
//! is one for each need, so no message is invented.

ghost use Rattle.std.specs.Prelude.{◌≡◌, ◌≤◌, false, length, slice_get, All, IfOk, IfSome, OnOk};
ghost use Rattle.lack_search.specs.Asks.{AreGivenLost, HasNoInvention};
ghost use Rattle.lack_search.specs.LostMessages.{key_of, AreLostIn};

use crate::asks::{Ask, Asks, GivenMessage};
use st_core::{Event, Kind, Label, Pid, Streams};
use st_pair::Pairing;
use std::alloc::{AllocError, Global};

/// A reported send that nobody received.
#[derive(Clone, Copy)]
struct LostMessage {
    count: u64,
    to: Pid,
    from: Pid,
    /// The index of the send among the reported events of its process.
    index: u32,
    label: Label,
    /// Whether a stamp got the message.
    given: bool,
}

/// The labels of the messages that a stamp may get.
#[derive(Clone, Copy, PartialEq, Eq)]
enum Choice {
    OwnLabel,
    AnyLabel,
}

/// The key that a stamp shares with the messages that it can get: the receiver, the count, and the
/// label if it must be the stamp's.
#[derive(Clone, Copy, PartialEq, Eq, PartialOrd, Ord)]
struct MessageKey {
    to: Pid,
    count: u64,
    label: Option<Label>,
}

impl Choice {
    /// Returns the key of a message with this receiver, count and label, and of the stamps that
    /// ask for it.
    fn key(self, to: Pid, count: u64, label: Label) -> MessageKey
        ensures { result ≡ key_of self to count label }
    {
        let label = match self {
            Choice::OwnLabel => Some(label),
            Choice::AnyLabel => None,
        };
        MessageKey { to, count, label }
    }

    fn key_of_ask(self, ask: &Ask) -> MessageKey
        ensures { result ≡ key_of self ask.now.process ask.now.count ask.now.label }
    {
        self.key(ask.process, ask.count, ask.label)
    }

    fn key_of_message(self, message: &LostMessage) -> MessageKey
        ensures { result ≡ key_of self message.now.to message.now.count message.now.label }
    {
        self.key(message.to, message.count, message.label)
    }
}

fn note_lost(
    streams: &Streams,
    pairing: &Pairing,
    pid: Pid,
    lost: &mut Vec<LostMessage>,
) -> Result<(), AllocError>
    requires { AreLostIn streams.now pairing.now lost.old.items }
    ensures { OnOk result (AreLostIn streams.now pairing.now lost.new.items) }
{
    for (place, event) in streams.events(pid).iter().enumerate() {
        if event.kind != Kind::Send || pairing.receiver(pid, place as u64).is_some() {
            continue;
        }
        let (Some(to), Ok(index)) = (event.to, u32::try_from(place)) else {
            continue;
        };
        lost.push(LostMessage {
            count: event.serial.this,
            to,
            from: pid,
            index,
            label: event.label,
            given: false,
        })?;
    }
    Ok(())
}

fn lost_messages(
    alloc: Global,
    streams: &Streams,
    pairing: &Pairing,
) -> Result<Vec<LostMessage>, AllocError>
    ensures { IfOk result (λ lost. AreLostIn streams.now pairing.now lost.items) }
{
    let mut lost = Vec::new(alloc);
    for &pid in streams.pids() {
        note_lost(streams, pairing, pid, &mut lost)?;
    }
    Ok(lost)
}

/// Returns the number of the first message from `start` on that isn't given and has the key or a
/// greater one; the number of all messages if there is none.
fn first_left(lost: &[LostMessage], start: usize, choice: Choice, key: MessageKey) -> usize
    requires { start ≤ length lost.now }
    ensures from { start ≤ result }
    ensures within { result ≤ length lost.now }
    ensures left { IfSome (slice_get lost.now result) (λ message. message.given ≡ false) }
{
    for number in start..lost.len() {
        let message = &lost[number];
        if !message.given && choice.key_of_message(message) >= key {
            return number;
        }
    }
    lost.len()
}

/// Gives each stamp without a message the first message left with its key. Stamps and messages
/// come by rising key, so each search goes on where the last one ended.
fn deal(asks: &mut [Ask], lost: &mut [LostMessage], choice: Choice)
    requires { All HasNoInvention asks.old }
    ensures { All HasNoInvention asks.new }
{
    let mut next = 0;
    for ask in asks.iter_mut() {
        if ask.message != GivenMessage::Missing {
            continue;
        }
        let key = choice.key_of_ask(ask);
        next = first_left(lost, next, choice, key);
        if next < lost.len() && choice.key_of_message(&lost[next]) == key {
            lost[next].given = true;
            ask.message = GivenMessage::Lost(lost[next].from, lost[next].index);
        }
    }
}

/// Gives the stamps messages. Among those with one key, the stamp with the least index gets the
/// message of the least sender.
fn give(asks: &mut Vec<Ask>, lost: &mut Vec<LostMessage>, choice: Choice) -> Result<(), AllocError>
    requires { All HasNoInvention asks.old.items }
    ensures { OnOk result (All HasNoInvention asks.new.items) }
{
    if asks.is_empty() || lost.is_empty() {
        return Ok(());
    }
    asks.sort_by_key(|ask| (choice.key_of_ask(ask), ask.index))?;
    lost.sort_by_key(|message| (choice.key_of_message(message), message.from))?;
    deal(asks, lost, choice);
    Ok(())
}

/// Gives messages that nobody received to stamps that ask for them: first to needs, those with the
/// need's label before the others; then likewise to stamps whose prev is above the clock.
pub(crate) fn give_lost(
    alloc: Global,
    streams: &Streams,
    pairing: &Pairing,
    asks: &mut Asks,
) -> Result<(), AllocError>
    requires { AreGivenLost asks.old }
    ensures { OnOk result (AreGivenLost asks.new) }
{
    if asks.needs.is_empty() && asks.beginnings.is_empty() {
        return Ok(());
    }
    let mut lost = lost_messages(alloc, streams, pairing)?;
    give(&mut asks.needs, &mut lost, Choice::OwnLabel)?;
    give(&mut asks.needs, &mut lost, Choice::AnyLabel)?;
    give(&mut asks.beginnings, &mut lost, Choice::OwnLabel)?;
    give(&mut asks.beginnings, &mut lost, Choice::AnyLabel)
}
