//! The stamps that ask for a message: sends and prints whose prev the events before them don't
//! leave.

ghost use Rattle.std.specs.Prelude.{◌≡◌, ◌++◌, All, IfOk, OnOk};
ghost use Rattle.lack_search.specs.Asks.{sent_for, AreGivenLost, HasNoInvention};

use crate::hidden_sends::{HiddenSend, split_hidden};
use crate::merged_events::MergedEvents;
use crate::short::short;
use lack_needs::{Left, is_stamp};
use st_core::{Event, Kind, Label, Pid, Serial, Streams};
use std::alloc::{AllocError, Global};
use std::cmp::Ordering;

/// The message that a stamp gets, if it gets one.
#[derive(Clone, Copy, PartialEq, Eq)]
pub(crate) enum GivenMessage {
    Missing,
    /// The message of a reported send that nobody received, by its sender and its index among the
    /// sender's reported events: its receive was lost.
    Lost(Pid, u32),
    /// An invented message, by its sender and its prev.
    Invented(Pid, u64),
}

/// A send or print that asks for a message with its prev as count.
#[derive(Clone, Copy)]
pub(crate) struct Ask {
    pub process: Pid,
    /// The index of the stamp among the reported events and hidden sends of its process.
    pub index: u32,
    pub label: Label,
    /// The prev of the stamp.
    pub count: u64,
    pub message: GivenMessage,
}

impl Ask {
    /// Returns the send of the message that the stamp got.
    pub(crate) fn sent(&self, streams: &Streams) -> Option<Event>
        ensures { result ≡ sent_for streams.now self.now self.now.message }
    {
        match self.message {
            GivenMessage::Missing => None,
            GivenMessage::Lost(from, index) => streams.event(from, u64::from(index)),
            GivenMessage::Invented(from, prev) => Some(Event {
                label: self.label,
                kind: Kind::Send,
                to: Some(self.process),
                from,
                serial: Serial {
                    prev,
                    this: self.count,
                },
                value: 0,
            }),
        }
    }
}

/// The stamps that ask for a message.
#[derive(Drop)]
pub(crate) struct Asks {
    /// The needs: stamps whose prev is below the clock, so that only a message can give it.
    pub needs: Vec<Ask>,
    /// The stamps whose prev is above the clock. The machine would let a trace begin there, but it
    /// is more likely that a message brought the count.
    pub beginnings: Vec<Ask>,
}

impl Asks {
    /// Notes what an event of the process asks for, after events that leave `left`.
    fn note(
        &mut self,
        process: Pid,
        index: usize,
        left: Left,
        event: &Event,
    ) -> Result<(), AllocError>
        requires { AreGivenLost self.old }
        ensures { OnOk result (AreGivenLost self.new) }
    {
        let count = event.serial.prev;
        if !is_stamp(event) || count == left.prev {
            return Ok(());
        }
        let ask = Ask {
            process,
            index: short(index),
            label: event.label,
            count,
            message: GivenMessage::Missing,
        };
        match count.cmp(&left.greatest) {
            Ordering::Less => self.needs.push(ask)?,
            // A trace may begin at the clock without a message, so a full trace asks for nothing.
            Ordering::Equal => {}
            Ordering::Greater => self.beginnings.push(ask)?,
        }
        Ok(())
    }

    fn note_all(&mut self, process: Pid, mut events: MergedEvents<'_>) -> Result<(), AllocError>
        requires { AreGivenLost self.old }
        ensures { OnOk result (AreGivenLost self.new) }
    {
        let mut left = Left::by_none();
        let mut index: usize = 0;
        while let Some(next) = events.take_next() {
            self.note(process, index, left, &next.event)?;
            left = left.after(&next.event);
            index = index.saturating_add(1);
        }
        Ok(())
    }

    /// Returns the stamps that ask among the events and hidden sends of the streams, by process
    /// and index.
    pub(crate) fn of(
        alloc: Global,
        streams: &Streams,
        hidden: &[HiddenSend],
    ) -> Result<Asks, AllocError>
        ensures { IfOk result AreGivenLost }
    {
        let mut asks = Asks {
            needs: Vec::new(alloc),
            beginnings: Vec::new(alloc),
        };
        let mut rest = hidden;
        for &pid in streams.pids() {
            let (own, later) = split_hidden(rest, pid);
            asks.note_all(
                pid,
                MergedEvents::new(streams, streams.events(pid), own, &[]),
            )?;
            rest = later;
        }
        Ok(asks)
    }

    /// Returns all needs, and the beginnings that got a message, by process and index.
    pub(crate) fn into_fed(self) -> Result<Vec<Ask>, AllocError>
        requires { AreGivenLost self }
        ensures { IfOk result (λ fed. All HasNoInvention fed.items) }
    {
        let Asks {
            needs: mut fed,
            beginnings,
        } = self;
        for ask in &beginnings {
            if ask.message != GivenMessage::Missing {
                fed.push(*ask)?;
            }
        }
        // Without lost messages the needs are still in order.
        if !fed.is_sorted_by_key(|ask| (ask.process, ask.index)) {
            fed.sort_by_key(|ask| (ask.process, ask.index))?;
        }
        Ok(fed)
    }
}

/// Splits the stamps into those of the processes up to `pid` and those of the others.
pub(crate) fn split_asks(asks: &[Ask], pid: Pid) -> (&[Ask], &[Ask])
    ensures { result.0.now ++ result.1.now ≡ asks.now }
{
    let count = asks.partition_point(|ask| ask.process <= pid);
    asks.split_at(count)
}
