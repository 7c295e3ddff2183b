//! Tests for pids of other nodes than 0, which decide the header.

ghost use Rattle.std.specs.Prelude.{◌≡◌};
ghost use Rattle.std.specs.List.{list_any, flat_map};
ghost use Rattle.st_text.specs.Text.{wanted, is_away, is_remote, process_lines, body, parts};
ghost use Rattle.st_text.specs.Parts.Remote.{is_event_remote, is_act_remote, is_process_remote};

use st_core::{Act, Event, Pid, Streams, Want};

pub(crate) fn is_away(pid: Pid) -> bool
    ensures { result ≡ is_away pid }
{
    pid.node() != 0
}

fn is_want_away(want: &Want) -> bool
    ensures { result ≡ list_any is_away (wanted want.now) }
{
    match want {
        Want::From(pid) | Want::Both(pid, _) => is_away(*pid),
        Want::First | Want::Value(_) | Want::Place(_) => false,
    }
}

pub(crate) fn is_event_remote(event: &Event) -> bool
    ensures { result ≡ is_event_remote event.now }
{
    if is_away(event.from) {
        return true;
    }
    match event.to {
        None => false,
        Some(to) => is_away(to),
    }
}

pub(crate) fn is_act_remote(act: &Act) -> bool
    ensures { result ≡ is_act_remote act.now }
{
    match act {
        Act::Send(sender, receiver, _) => is_away(*sender) || is_away(*receiver),
        Act::Receive(pid, want) => is_away(*pid) || is_want_away(want),
        Act::Restore(pid, token) => is_away(*pid) || is_away(token.from),
        Act::Print(pid, _)
        | Act::PrintAt(pid, _, _)
        | Act::Set(pid, _)
        | Act::Clear(pid)
        | Act::Look(pid)
        | Act::Reset(pid)
        | Act::Tracer(pid, _) => is_away(*pid),
    }
}

fn are_events_remote(events: &[Event]) -> bool
    ensures { result ≡ list_any is_event_remote events.now }
{
    events.iter().any(|event| is_event_remote(event))
}

fn are_acts_remote(acts: &[Act]) -> bool
    ensures { result ≡ list_any is_act_remote acts.now }
{
    acts.iter().any(|act| is_act_remote(act))
}

fn is_process_remote(streams: &Streams, pid: Pid) -> bool
    ensures { result ≡ is_process_remote streams.now pid }
{
    is_away(pid) || are_events_remote(streams.events(pid))
}

fn are_streams_remote(streams: &Streams) -> bool
    ensures { result ≡ list_any is_remote (flat_map process_lines streams.now) }
{
    for pid in streams.pids() {
        if is_process_remote(streams, *pid) {
            return true;
        }
    }
    false
}

/// Returns whether any line of a bundle with these parts names a pid of another node than 0.
pub(crate) fn are_parts_remote(streams: &Streams, acts: Option<&[Act]>) -> bool
    ensures { result ≡ list_any is_remote (body (parts streams.now acts.entry)) }
{
    if are_streams_remote(streams) {
        return true;
    }
    match acts {
        None => false,
        Some(acts) => are_acts_remote(acts),
    }
}
