//! Readers of a word or a small value at the front of some bytes: each returns the value and the
//! bytes after it. [`read_pid`] and [`read_number`] read a whole word of a command line.

ghost use Rattle.std.specs.Prelude.{◌≡◌};
ghost use Rattle.st_text.specs.Parts.Words.{Gives};
ghost use Rattle.st_text.specs.Parsing.{after, parse_bool, parse_pid};
ghost use Rattle.st_text.specs.Parsing.{parse_label, parse_serial, parse_actor};
ghost use Rattle.st_text.specs.Parsing.{number_in, parse_bare_pid, pid_in};

use crate::number::number;
use st_core::{Label, Pid, Serial};

/// The greatest node and number of a pid.
const MOST_PID: u64 = 65_535;

/// The greatest label.
const MOST_LABEL: u64 = 4_294_967_295;

/// Returns the bytes after the word, if they begin with it.
#[inline]
pub(crate) fn after<'a>(word: &[u8], bytes: &'a [u8]) -> Option<&'a [u8]>
    ensures { Gives (λ x. x.now) result (after word.now bytes.now) }
{
    bytes.strip_prefix(word)
}

#[inline]
#[tactic(auto, unfolding(crate::specs::Parsing::parse_bool))]
pub(crate) fn parse_bool(bytes: &[u8]) -> Option<(bool, &[u8])>
    ensures { Gives (λ x. (x.0, x.1.now)) result (parse_bool bytes.now) }
{
    if let Some(rest) = after(b"true", bytes) {
        return Some((true, rest));
    }
    if let Some(rest) = after(b"false", bytes) {
        return Some((false, rest));
    }
    None
}

#[tactic(auto, unfolding(crate::specs::Parsing::parse_pid))]
pub(crate) fn parse_pid(bytes: &[u8]) -> Option<(Pid, &[u8])>
    ensures { Gives (λ x. (x.0, x.1.now)) result (parse_pid bytes.now) }
{
    let rest = after(b"<", bytes)?;
    let (node, rest) = number(MOST_PID, rest)?;
    let rest = after(b".", rest)?;
    let (number, rest) = number(MOST_PID, rest)?;
    let rest = after(b".0>", rest)?;
    Some((Pid::on(node as u16, number as u16), rest))
}

#[inline]
#[tactic(auto, unfolding(crate::specs::Parsing::parse_label))]
pub(crate) fn parse_label(bytes: &[u8]) -> Option<(Label, &[u8])>
    ensures { Gives (λ x. (x.0, x.1.now)) result (parse_label bytes.now) }
{
    let (label, rest) = number(MOST_LABEL, bytes)?;
    Some((Label(label as u32), rest))
}

#[inline]
#[tactic(auto, unfolding(crate::specs::Parsing::parse_serial))]
pub(crate) fn parse_serial(bytes: &[u8]) -> Option<(Serial, &[u8])>
    ensures { Gives (λ x. (x.0, x.1.now)) result (parse_serial bytes.now) }
{
    let rest = after(b"{", bytes)?;
    let (prev, rest) = number(u64::MAX, rest)?;
    let rest = after(b",", rest)?;
    let (this, rest) = number(u64::MAX, rest)?;
    let rest = after(b"}", rest)?;
    Some((Serial { prev, this }, rest))
}

/// Reads a pid and the space after it.
#[inline]
#[tactic(auto, unfolding(crate::specs::Parsing::parse_actor))]
pub(crate) fn parse_actor(bytes: &[u8]) -> Option<(Pid, &[u8])>
    ensures { Gives (λ x. (x.0, x.1.now)) result (parse_actor bytes.now) }
{
    let (pid, rest) = parse_pid(bytes)?;
    let rest = after(b" ", rest)?;
    Some((pid, rest))
}

#[tactic(auto, unfolding(crate::specs::Parsing::parse_bare_pid))]
fn parse_bare_pid(bytes: &[u8]) -> Option<(Pid, &[u8])>
    ensures { Gives (λ x. (x.0, x.1.now)) result (parse_bare_pid bytes.now) }
{
    let (node, rest) = number(MOST_PID, bytes)?;
    let rest = after(b".", rest)?;
    let (number, rest) = number(MOST_PID, rest)?;
    let rest = after(b".0", rest)?;
    Some((Pid::on(node as u16, number as u16), rest))
}

/// Returns the pid that all the bytes spell, as `<0.31.0>` or `0.31.0`; else `None`.
#[tactic(auto, unfolding(crate::specs::Parsing::pid_in))]
pub fn read_pid(bytes: &[u8]) -> Option<Pid>
    ensures { result ≡ pid_in bytes.now }
{
    let found = match parse_pid(bytes) {
        Some(found) => Some(found),
        None => parse_bare_pid(bytes),
    };
    let (pid, rest) = found?;
    if rest.is_empty() { Some(pid) } else { None }
}

/// Returns the number that all the bytes spell in decimal, without a leading zero and at most
/// `u64::MAX`; else `None`.
#[tactic(auto, unfolding(crate::specs::Parsing::number_in))]
pub fn read_number(bytes: &[u8]) -> Option<u64>
    ensures { result ≡ number_in bytes.now }
{
    let (number, rest) = number(u64::MAX, bytes)?;
    if rest.is_empty() { Some(number) } else { None }
}
