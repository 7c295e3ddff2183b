//! Comparisons of entries and of calls. Each function over a single `==` is there for the proofs,
//! which cite it without the other comparisons.

ghost use Rattle.std.specs.Prelude.{◌≡◌, ◌↔◌, IsTrue};

use crate::entry::Entry;
use st_core::{Act, Component, Event, Reply, Token};

/// Returns whether the two entries are equal.
pub fn is_same_entry(first: &Entry, second: &Entry) -> bool
    ensures { IsTrue result ↔ (first.now ≡ second.now) }
{
    first.rank == second.rank
        && is_same_act(&first.act, &second.act)
        && is_same_reply(&first.reply, &second.reply)
        && is_same_report(&first.report, &second.report)
        && is_same_token(&first.carried, &second.carried)
}

/// Returns whether the call is `act` with `reply`.
pub fn is_call(call: &(Act, Reply), act: &Act, reply: &Reply) -> bool
    ensures { IsTrue result ↔ (call.now ≡ (act.now, reply.now)) }
{
    is_same_act(&call.0, act) && is_same_reply(&call.1, reply)
}

fn is_same_act(first: &Act, second: &Act) -> bool
    ensures { IsTrue result ↔ (first.now ≡ second.now) }
{
    *first == *second
}

fn is_same_reply(first: &Reply, second: &Reply) -> bool
    ensures { IsTrue result ↔ (first.now ≡ second.now) }
{
    match (*first, *second) {
        (Reply::Done, Reply::Done) | (Reply::Nothing, Reply::Nothing) => true,
        (Reply::Old(x), Reply::Old(y)) => is_same_component(&x, &y),
        (Reply::Previous(x), Reply::Previous(y)) | (Reply::Current(x), Reply::Current(y)) => {
            is_same_token(&x, &y)
        }
        (Reply::Mail(p, v), Reply::Mail(q, w)) => p == q && v == w,
        (Reply::Was(x), Reply::Was(y)) => x == y,
        _ => false,
    }
}

fn is_same_component(first: &Option<Component>, second: &Option<Component>) -> bool
    ensures { IsTrue result ↔ (first.now ≡ second.now) }
{
    *first == *second
}

/// Returns whether the two reports are equal, or both none.
pub fn is_same_report(first: &Option<Event>, second: &Option<Event>) -> bool
    ensures { IsTrue result ↔ (first.now ≡ second.now) }
{
    *first == *second
}

fn is_same_token(first: &Option<Token>, second: &Option<Token>) -> bool
    ensures { IsTrue result ↔ (first.now ≡ second.now) }
{
    *first == *second
}
