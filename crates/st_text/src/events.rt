//! Reads the system tracer's tuples at the front of some bytes.

ghost use Rattle.st_text.specs.Parts.Words.{Gives};
ghost use Rattle.st_text.specs.Parsing.{parse_kind, parse_head, parse_some_pid};
ghost use Rattle.st_text.specs.Parsing.{parse_place, parse_ends, parse_event};

use crate::number::number;
use crate::words::{after, parse_label, parse_pid, parse_serial};
use st_core::{Event, Kind, Label, Pid};

#[tactic(auto, unfolding(crate::specs::Parsing::parse_kind))]
fn parse_kind(bytes: &[u8]) -> Option<(Kind, &[u8])>
    ensures { Gives (λ x. (x.0, x.1.now)) result (parse_kind bytes.now) }
{
    if let Some(rest) = after(b"send", bytes) {
        return Some((Kind::Send, rest));
    }
    if let Some(rest) = after(b"'receive'", bytes) {
        return Some((Kind::Receive, rest));
    }
    if let Some(rest) = after(b"print", bytes) {
        return Some((Kind::Print, rest));
    }
    None
}

#[tactic(auto, unfolding(crate::specs::Parsing::parse_head))]
fn parse_head(bytes: &[u8]) -> Option<((Label, Kind), &[u8])>
    ensures { Gives (λ x. (x.0, x.1.now)) result (parse_head bytes.now) }
{
    let (label, rest) = parse_label(bytes)?;
    let rest = after(b",{", rest)?;
    let (kind, rest) = parse_kind(rest)?;
    let rest = after(b",", rest)?;
    Some(((label, kind), rest))
}

#[tactic(auto, unfolding(crate::specs::Parsing::parse_some_pid))]
fn parse_some_pid(bytes: &[u8]) -> Option<(Option<Pid>, &[u8])>
    ensures { Gives (λ x. (x.0, x.1.now)) result (parse_some_pid bytes.now) }
{
    let (pid, rest) = parse_pid(bytes)?;
    Some((Some(pid), rest))
}

/// Reads the receiver, or the `[]` that a print has in its place.
#[tactic(auto, unfolding(crate::specs::Parsing::parse_place))]
fn parse_place(kind: Kind, bytes: &[u8]) -> Option<(Option<Pid>, &[u8])>
    ensures { Gives (λ x. (x.0, x.1.now)) result (parse_place kind bytes.now) }
{
    match kind {
        Kind::Send => parse_some_pid(bytes),
        Kind::Receive => parse_some_pid(bytes),
        Kind::Print => {
            if let Some(rest) = after(b"[]", bytes) {
                return Some((None, rest));
            }
            None
        }
    }
}

#[tactic(auto, unfolding(crate::specs::Parsing::parse_ends))]
fn parse_ends(kind: Kind, bytes: &[u8]) -> Option<((Pid, Option<Pid>), &[u8])>
    ensures { Gives (λ x. (x.0, x.1.now)) result (parse_ends kind bytes.now) }
{
    let (from, rest) = parse_pid(bytes)?;
    let rest = after(b",", rest)?;
    let (to, rest) = parse_place(kind, rest)?;
    Some(((from, to), rest))
}

/// Reads an event after its first word.
#[tactic(auto, unfolding(crate::specs::Parsing::parse_event))]
pub(crate) fn parse_event(bytes: &[u8]) -> Option<(Event, &[u8])>
    ensures { Gives (λ x. (x.0, x.1.now)) result (parse_event bytes.now) }
{
    let ((label, kind), rest) = parse_head(bytes)?;
    let (serial, rest) = parse_serial(rest)?;
    let rest = after(b",", rest)?;
    let ((from, to), rest) = parse_ends(kind, rest)?;
    let rest = after(b",", rest)?;
    let (value, rest) = number(u64::MAX, rest)?;
    let rest = after(b"}}", rest)?;
    let event = Event {
        label,
        kind,
        serial,
        from,
        to,
        value,
    };
    Some((event, rest))
}
