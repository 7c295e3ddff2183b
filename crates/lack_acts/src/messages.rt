//! Unreported messages, each as two untold events.

ghost use Rattle.std.specs.Prelude.{IfSome, OnOk};
ghost use Rattle.lack_acts.specs.Insertions.{AreInsertions, IsMessage};

use crate::gaps::Gap;
use crate::insertion::Insertion;
use crate::marked_streams::pid_at;
use st_core::{Event, Kind, Label, Streams};
use std::alloc::AllocError;

/// The place at which a process receives a message, and the message's label.
#[derive(Clone, Copy)]
pub(crate) struct Receipt {
    /// The process, by its place in the streams.
    pub process: usize,
    /// The index of the event right before which it receives the message.
    pub index: usize,
    /// The label of the message.
    pub label: Label,
    /// Whether it receives the message after all that it sends before that event.
    pub comes_last: bool,
}

/// Returns the send of a message with this count from a gap, and the receive; `None` if a process
/// isn't listed.
fn message(streams: &Streams, from: &Gap, to: Receipt, count: u64) -> Option<(Insertion, Insertion)>
    ensures { IfSome result (λ pair. IsMessage streams.now count pair.0 pair.1) }
{
    let sender = pid_at(streams, from.process)?;
    let receiver = pid_at(streams, to.process)?;
    let sent = Event {
        label: to.label,
        kind: Kind::Send,
        to: Some(receiver),
        from: sender,
        serial: from.serial_at(count),
        value: 0,
    };
    let send = Insertion {
        process: from.process,
        index: from.index,
        comes_last: false,
        event: sent,
    };
    let receive = Insertion {
        process: to.process,
        index: to.index,
        comes_last: to.comes_last,
        event: Event {
            kind: Kind::Receive,
            ..sent
        },
    };
    Some((send, receive))
}

/// Adds the send of a message with this count from a gap, and the receive. Returns false if a
/// process isn't listed.
pub(crate) fn put_message(
    untold: &mut Vec<Insertion>,
    streams: &Streams,
    from: &Gap,
    to: Receipt,
    count: u64,
) -> Result<bool, AllocError>
    requires { AreInsertions streams.now untold.old.items }
    ensures { OnOk result (AreInsertions streams.now untold.new.items) }
{
    let Some((send, receive)) = message(streams, from, to, count) else {
        return Ok(false);
    };
    untold.push(send)?;
    untold.push(receive)?;
    Ok(true)
}
