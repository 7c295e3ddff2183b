//! Finds the receives of messages that nobody sent.

ghost use Rattle.std.specs.Prelude.{◌≡◌, ◌&&◌, ◌++◌, [], List, IfOk, OnOk, is_none};
ghost use Rattle.st_core.specs.Run.{pids_of, Stream};
ghost use Rattle.node_streams.specs.Messages.{all_taken_sends, taken_sends, takes_message};
ghost use Rattle.node_streams.specs.Messages.{unsent_among, unsent_from};

use crate::sends::{taken_at, taken_of};
use st_core::{Event, Kind, Pid, Sequence, Streams};
use std::alloc::{AllocError, Global};

/// Returns whether an event is the receive of a message that nobody sent, if it took `send`.
fn is_unsent(event: &Event, send: Option<u64>) -> bool
    ensures { result ≡ (takes_message event.now && is_none send) }
{
    match event.kind {
        Kind::Send | Kind::Print => false,
        Kind::Receive => send.is_none(),
    }
}

fn add_unsent(
    places: &mut Vec<(Pid, u64)>,
    pid: Pid,
    events: &[Event],
    taken: &[Option<u64>],
) -> Result<(), AllocError>
    ensures { (streams : List Stream) → taken.now ≡ taken_sends streams events.now
        → OnOk result (places.new.items
        ≡ places.old.items ++ unsent_from streams pid [] events.now) }
{
    for (i, event) in events.iter().enumerate() {
        if is_unsent(event, taken_at(taken, i)) {
            places.push((pid, i as u64))?;
        }
    }
    Ok(())
}

pub(crate) fn unsent(
    alloc: Global,
    streams: &Streams,
    taken: &[Sequence<Option<u64>>],
) -> Result<Vec<(Pid, u64)>, AllocError>
    requires taken { taken.now ≡ all_taken_sends streams.now }
    ensures { IfOk result (λ v. v.items ≡ unsent_among streams.now (pids_of streams.now)) }
{
    let mut places = Vec::new(alloc);
    for (place, &pid) in streams.pids().iter().enumerate() {
        add_unsent(
            &mut places,
            pid,
            streams.events(pid),
            taken_of(taken, place),
        )?;
    }
    Ok(places)
}
