//! Hidden sends, which only their receives tell of.

ghost use Rattle.std.specs.Prelude.{◌≡◌, ◌++◌, IfOk, OnOk};
ghost use Rattle.lack_search.specs.Sends.{AreSendsIn};

use st_core::{Event, Kind, Pid, Streams};
use st_pair::{Pairing, Source};
use std::alloc::{AllocError, Global};

/// A send that only its receive tells of.
#[derive(Clone, Copy)]
pub(crate) struct HiddenSend {
    /// The send, as its receive tells of it.
    pub event: Event,
    /// The index of the sender's reported event that the send goes before; the number of these
    /// events if it goes after all; 0 until the walk has found it.
    pub place: u32,
    /// The index of the receive among the reported events of its process.
    pub receipt: u32,
}

/// Splits the hidden sends into those of the processes up to `pid` and those of the others.
pub(crate) fn split_hidden(hidden: &[HiddenSend], pid: Pid) -> (&[HiddenSend], &[HiddenSend])
    ensures { result.0.now ++ result.1.now ≡ hidden.now }
{
    let count = hidden.partition_point(|send| send.event.from <= pid);
    hidden.split_at(count)
}

/// Notes the hidden sends that the receives of a process tell of.
fn note_hidden(
    streams: &Streams,
    pairing: &Pairing,
    pid: Pid,
    hidden: &mut Vec<HiddenSend>,
) -> Result<(), AllocError>
    requires { AreSendsIn streams.now hidden.old.items }
    ensures { OnOk result (AreSendsIn streams.now hidden.new.items) }
{
    for (index, event) in streams.events(pid).iter().enumerate() {
        if event.kind != Kind::Receive {
            continue;
        }
        let (Some(Source::Hidden), Ok(receipt)) = (
            pairing.source(pid, index as u64),
            u32::try_from(index),
        ) else {
            continue;
        };
        hidden.push(HiddenSend {
            event: Event {
                kind: Kind::Send,
                ..*event
            },
            place: 0,
            receipt,
        })?;
    }
    Ok(())
}

/// Returns the hidden sends of the streams, by sender and count, without places. Pairing accepts
/// no two receives with one sender and count, so no two sends have one key.
pub(crate) fn hidden_sends(
    alloc: Global,
    streams: &Streams,
    pairing: &Pairing,
) -> Result<Vec<HiddenSend>, AllocError>
    ensures { IfOk result (λ sends. AreSendsIn streams.now sends.items) }
{
    let mut hidden = Vec::new(alloc);
    for &pid in streams.pids() {
        note_hidden(streams, pairing, pid, &mut hidden)?;
    }
    hidden.sort_unstable_by_key(|send| (send.event.from, send.event.serial.this));
    Ok(hidden)
}
