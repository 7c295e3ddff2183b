//! The reported ends of messages, by their content: all sends, or all receives.
//!
//! They are sorted, and not in a hash table: whoever writes a trace could choose contents whose
//! hashes meet.

ghost use Rattle.std.specs.Prelude.{◌≡◌, ◌≤◌, IfOk, List, OnOk, drop, length, option_map};
ghost use Rattle.std.specs.Prelude.{slice_get};
ghost use Rattle.std.specs.List.{filter};
ghost use Rattle.st_core.specs.Event.{kind_eq};
ghost use Rattle.st_core.specs.Run.{pids_of};
ghost use Rattle.st_core.specs.Streams.{IsStreams, events_of};
ghost use Rattle.st_core.specs.declared.types.Kind.{Kind as KindValue};
ghost use Rattle.node_streams.specs.Messages.{nth, tells};
ghost use Rattle.node_streams.specs.Tables.{AreByContent, AreEnds, alike, ends_from, index_if};
ghost use Rattle.node_streams.specs.declared.ends.End.{End as EndValue};

use crate::content::MessageContent;
use st_core::{Event, Kind, Pid, Sequence, Streams};
use std::alloc::{AllocError, Global};

fn is_of_kind(kind: Kind, event: &Event) -> bool
    ensures { result ≡ kind_eq event.now.kind kind }
{
    match (kind, event.kind) {
        (Kind::Send, Kind::Send) | (Kind::Receive, Kind::Receive) | (Kind::Print, Kind::Print) => {
            true
        }
        (_, _) => false,
    }
}

/// A reported end of a message.
#[derive(Clone, Copy, Debug, PartialEq, Eq)]
pub(crate) struct End {
    pub(crate) content: MessageContent,
    /// The index of the end's event in its process's stream.
    pub(crate) index: u64,
}

fn own_ends(alloc: Global, kind: Kind, events: &[Event]) -> Result<Vec<End>, AllocError>
    ensures { IfOk result (λ v. v.items ≡ ends_from kind 0 events.now) }
{
    let count = events
        .iter()
        .filter(|event| is_of_kind(kind, event))
        .count();
    let mut ends = Vec::with_capacity(alloc, count)?;
    for (i, event) in events.iter().enumerate() {
        if is_of_kind(kind, event) {
            let content = MessageContent::of(event);
            ends.push(End {
                content,
                index: i as u64,
            })?;
        }
    }
    Ok(ends)
}

/// Returns the ends of a kind among a process's events, sorted by content.
pub(crate) fn ends_by_content(
    alloc: Global,
    kind: Kind,
    events: &[Event],
) -> Result<Vec<End>, AllocError>
    ensures { IfOk result (λ v. AreByContent (ends_from kind 0 events.now) v.items) }
{
    let mut ends = own_ends(alloc, kind, events)?;
    ends.sort_by_key(|end| end.content)?;
    Ok(ends)
}

/// Returns the end `number` places after the one at `first`.
fn end_behind(ends: &[End], first: usize, number: u64) -> Option<End>
    requires { first ≤ length ends.now }
    ensures { result ≡ slice_get (drop first ends.now) number }
{
    ends[first..].get(number as usize).copied()
}

fn index_if(content: MessageContent, end: Option<End>) -> Option<u64>
    ensures { result ≡ index_if content end }
{
    match end {
        None => None,
        Some(end) => {
            if end.content == content {
                Some(end.index)
            } else {
                None
            }
        }
    }
}

/// Returns the index of the end with a content that comes after `number` alike ones, among ends
/// sorted by content.
fn nth_end(ends: &[End], content: MessageContent, number: u64) -> Option<u64>
    ensures { (all : List EndValue) → AreByContent all ends.now
        → result ≡ option_map (λ x. x.index) (slice_get (filter (alike content) all) number) }
{
    let first = ends.partition_point(|end| end.content.cmp(&content).is_lt());
    index_if(content, end_behind(ends, first, number))
}

/// Returns the ends of a kind of each process, sorted by content.
pub(crate) fn all_ends(
    alloc: Global,
    streams: &Streams,
    kind: Kind,
) -> Result<Vec<Sequence<End>>, AllocError>
    ensures lists { IfOk result (λ v. AreEnds kind streams.now v.items) }
    ensures sound { OnOk result (IsStreams streams.now) }
{
    let mut lists = Vec::new(alloc);
    for &pid in streams.pids() {
        let list = ends_by_content(alloc, kind, streams.events(pid))?;
        lists.push(Sequence::from_vec(list))?;
    }
    Ok(lists)
}

/// Returns the index, in a process's stream, of its end with a content that comes after `number`
/// alike ones.
pub(crate) fn place(
    streams: &Streams,
    ends: &[Sequence<End>],
    pid: Pid,
    content: MessageContent,
    number: u64,
) -> Option<u64>
    requires sound { IsStreams streams.now }
    requires each { length ends.now ≡ length (pids_of streams.now) }
    ensures { (kind : KindValue) → AreEnds kind streams.now ends.now
        → result ≡ nth (tells kind content) number (events_of streams.now pid) }
{
    match streams.place_of(pid) {
        None => None,
        Some(place) => nth_end(ends[place].as_slice(), content, number),
    }
}
