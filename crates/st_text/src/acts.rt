//! Reads an act at the front of some bytes: a word and its fields, with one space between.

ghost use Rattle.st_text.specs.Parts.Words.{Gives};
ghost use Rattle.st_text.specs.Parsing.{parse_component, parse_both, parse_want};
ghost use Rattle.st_text.specs.Parsing.{parse_flags, parse_token};
ghost use Rattle.st_text.specs.Parsing.{parse_send, parse_receive, parse_print};
ghost use Rattle.st_text.specs.Parsing.{parse_printat, parse_set};
ghost use Rattle.st_text.specs.Parsing.{parse_restore, parse_tracer, parse_alone, parse_act};

use crate::number::number;
use crate::words::{after, parse_actor, parse_bool, parse_label, parse_pid};
use st_core::{Act, Component, Flags, Serial, Token, Want};

#[tactic(auto, unfolding(crate::specs::Parsing::parse_component))]
fn parse_component(bytes: &[u8]) -> Option<(Component, &[u8])>
    ensures { Gives (λ x. (x.0, x.1.now)) result (parse_component bytes.now) }
{
    if let Some(rest) = after(b"label ", bytes) {
        let (label, rest) = parse_label(rest)?;
        return Some((Component::Label(label), rest));
    }
    if let Some(rest) = after(b"send ", bytes) {
        let (flag, rest) = parse_bool(rest)?;
        return Some((Component::Send(flag), rest));
    }
    if let Some(rest) = after(b"receive ", bytes) {
        let (flag, rest) = parse_bool(rest)?;
        return Some((Component::Receive(flag), rest));
    }
    if let Some(rest) = after(b"print ", bytes) {
        let (flag, rest) = parse_bool(rest)?;
        return Some((Component::Print(flag), rest));
    }
    None
}

#[tactic(auto, unfolding(crate::specs::Parsing::parse_both))]
fn parse_both(bytes: &[u8]) -> Option<(Want, &[u8])>
    ensures { Gives (λ x. (x.0, x.1.now)) result (parse_both bytes.now) }
{
    let (pid, rest) = parse_actor(bytes)?;
    let (value, rest) = number(u64::MAX, rest)?;
    Some((Want::Both(pid, value), rest))
}

#[tactic(auto, unfolding(crate::specs::Parsing::parse_want))]
fn parse_want(bytes: &[u8]) -> Option<(Want, &[u8])>
    ensures { Gives (λ x. (x.0, x.1.now)) result (parse_want bytes.now) }
{
    if let Some(rest) = after(b"first", bytes) {
        return Some((Want::First, rest));
    }
    if let Some(rest) = after(b"from ", bytes) {
        let (pid, rest) = parse_pid(rest)?;
        return Some((Want::From(pid), rest));
    }
    if let Some(rest) = after(b"value ", bytes) {
        let (value, rest) = number(u64::MAX, rest)?;
        return Some((Want::Value(value), rest));
    }
    if let Some(rest) = after(b"both ", bytes) {
        return parse_both(rest);
    }
    if let Some(rest) = after(b"place ", bytes) {
        let (place, rest) = number(u64::MAX, rest)?;
        return Some((Want::Place(place), rest));
    }
    None
}

#[tactic(auto, unfolding(crate::specs::Parsing::parse_flags))]
fn parse_flags(bytes: &[u8]) -> Option<(Flags, &[u8])>
    ensures { Gives (λ x. (x.0, x.1.now)) result (parse_flags bytes.now) }
{
    let (send, rest) = parse_bool(bytes)?;
    let rest = after(b" ", rest)?;
    let (receive, rest) = parse_bool(rest)?;
    let rest = after(b" ", rest)?;
    let (print, rest) = parse_bool(rest)?;
    let flags = Flags {
        send,
        receive,
        print,
    };
    Some((flags, rest))
}

#[tactic(auto, unfolding(crate::specs::Parsing::parse_token))]
fn parse_token(bytes: &[u8]) -> Option<(Token, &[u8])>
    ensures { Gives (λ x. (x.0, x.1.now)) result (parse_token bytes.now) }
{
    let (label, rest) = parse_label(bytes)?;
    let rest = after(b" ", rest)?;
    let (flags, rest) = parse_flags(rest)?;
    let rest = after(b" ", rest)?;
    let (prev, rest) = number(u64::MAX, rest)?;
    let rest = after(b" ", rest)?;
    let (this, rest) = number(u64::MAX, rest)?;
    let rest = after(b" ", rest)?;
    let (from, rest) = parse_pid(rest)?;
    let token = Token {
        label,
        flags,
        serial: Serial { prev, this },
        from,
    };
    Some((token, rest))
}

#[tactic(auto, unfolding(crate::specs::Parsing::parse_send))]
fn parse_send(bytes: &[u8]) -> Option<(Act, &[u8])>
    ensures { Gives (λ x. (x.0, x.1.now)) result (parse_send bytes.now) }
{
    let (pid, rest) = parse_actor(bytes)?;
    let (receiver, rest) = parse_actor(rest)?;
    let (value, rest) = number(u64::MAX, rest)?;
    Some((Act::Send(pid, receiver, value), rest))
}

#[tactic(auto, unfolding(crate::specs::Parsing::parse_receive))]
fn parse_receive(bytes: &[u8]) -> Option<(Act, &[u8])>
    ensures { Gives (λ x. (x.0, x.1.now)) result (parse_receive bytes.now) }
{
    let (pid, rest) = parse_actor(bytes)?;
    let (want, rest) = parse_want(rest)?;
    Some((Act::Receive(pid, want), rest))
}

#[tactic(auto, unfolding(crate::specs::Parsing::parse_print))]
fn parse_print(bytes: &[u8]) -> Option<(Act, &[u8])>
    ensures { Gives (λ x. (x.0, x.1.now)) result (parse_print bytes.now) }
{
    let (pid, rest) = parse_actor(bytes)?;
    let (value, rest) = number(u64::MAX, rest)?;
    Some((Act::Print(pid, value), rest))
}

#[tactic(auto, unfolding(crate::specs::Parsing::parse_printat))]
fn parse_printat(bytes: &[u8]) -> Option<(Act, &[u8])>
    ensures { Gives (λ x. (x.0, x.1.now)) result (parse_printat bytes.now) }
{
    let (pid, rest) = parse_actor(bytes)?;
    let (label, rest) = parse_label(rest)?;
    let rest = after(b" ", rest)?;
    let (value, rest) = number(u64::MAX, rest)?;
    Some((Act::PrintAt(pid, label, value), rest))
}

#[tactic(auto, unfolding(crate::specs::Parsing::parse_set))]
fn parse_set(bytes: &[u8]) -> Option<(Act, &[u8])>
    ensures { Gives (λ x. (x.0, x.1.now)) result (parse_set bytes.now) }
{
    let (pid, rest) = parse_actor(bytes)?;
    let (component, rest) = parse_component(rest)?;
    Some((Act::Set(pid, component), rest))
}

#[tactic(auto, unfolding(crate::specs::Parsing::parse_restore))]
fn parse_restore(bytes: &[u8]) -> Option<(Act, &[u8])>
    ensures { Gives (λ x. (x.0, x.1.now)) result (parse_restore bytes.now) }
{
    let (pid, rest) = parse_actor(bytes)?;
    let (token, rest) = parse_token(rest)?;
    Some((Act::Restore(pid, token), rest))
}

#[tactic(auto, unfolding(crate::specs::Parsing::parse_tracer))]
fn parse_tracer(bytes: &[u8]) -> Option<(Act, &[u8])>
    ensures { Gives (λ x. (x.0, x.1.now)) result (parse_tracer bytes.now) }
{
    let (pid, rest) = parse_actor(bytes)?;
    let (flag, rest) = parse_bool(rest)?;
    Some((Act::Tracer(pid, flag), rest))
}

/// Reads an act that only names its actor.
#[tactic(auto, unfolding(crate::specs::Parsing::parse_alone))]
fn parse_alone(bytes: &[u8]) -> Option<(Act, &[u8])>
    ensures { Gives (λ x. (x.0, x.1.now)) result (parse_alone bytes.now) }
{
    if let Some(rest) = after(b"clear ", bytes) {
        let (pid, rest) = parse_pid(rest)?;
        return Some((Act::Clear(pid), rest));
    }
    if let Some(rest) = after(b"look ", bytes) {
        let (pid, rest) = parse_pid(rest)?;
        return Some((Act::Look(pid), rest));
    }
    if let Some(rest) = after(b"reset ", bytes) {
        let (pid, rest) = parse_pid(rest)?;
        return Some((Act::Reset(pid), rest));
    }
    None
}

#[tactic(auto, unfolding(crate::specs::Parsing::parse_act))]
pub(crate) fn parse_act(bytes: &[u8]) -> Option<(Act, &[u8])>
    ensures { Gives (λ x. (x.0, x.1.now)) result (parse_act bytes.now) }
{
    if let Some(rest) = after(b"send ", bytes) {
        return parse_send(rest);
    }
    if let Some(rest) = after(b"receive ", bytes) {
        return parse_receive(rest);
    }
    if let Some(rest) = after(b"print ", bytes) {
        return parse_print(rest);
    }
    if let Some(rest) = after(b"printat ", bytes) {
        return parse_printat(rest);
    }
    if let Some(rest) = after(b"set ", bytes) {
        return parse_set(rest);
    }
    if let Some(rest) = after(b"restore ", bytes) {
        return parse_restore(rest);
    }
    if let Some(rest) = after(b"tracer ", bytes) {
        return parse_tracer(rest);
    }
    parse_alone(bytes)
}
