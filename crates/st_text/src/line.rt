//! One line of a text: what it may say, and the reader of a whole line. It knows nothing of the
//! lines around it.

ghost use Rattle.std.specs.Prelude.{◌≡◌};
ghost use Rattle.st_text.specs.Parts.Words.{Gives};
ghost use Rattle.st_text.specs.Parsing.{parse_rare, parse_line, line_of};

use crate::acts::parse_act;
use crate::events::parse_event;
use crate::words::{after, parse_pid};
use st_core::{Act, Event, Pid};

/// The meaning of a line.
#[derive(Clone, Copy, Debug, PartialEq, Eq)]
pub enum Line {
    /// The header: true for `seqtrace 2`.
    Header(bool),
    Process(Pid),
    Event(Event),
    /// The word before the acts.
    Acts,
    Act(Act),
}

/// Reads a line that a text has once, or once for each process.
#[tactic(auto, unfolding(crate::specs::Parsing::parse_rare))]
fn parse_rare(bytes: &[u8]) -> Option<(Line, &[u8])>
    ensures { Gives (λ x. (x.0, x.1.now)) result (parse_rare bytes.now) }
{
    if let Some(rest) = after(b"process ", bytes) {
        let (pid, rest) = parse_pid(rest)?;
        return Some((Line::Process(pid), rest));
    }
    if let Some(rest) = after(b"acts", bytes) {
        return Some((Line::Acts, rest));
    }
    if let Some(rest) = after(b"seqtrace 1", bytes) {
        return Some((Line::Header(false), rest));
    }
    if let Some(rest) = after(b"seqtrace 2", bytes) {
        return Some((Line::Header(true), rest));
    }
    None
}

/// Tries the commonest lines first.
#[tactic(auto, unfolding(crate::specs::Parsing::parse_line))]
fn parse_line(bytes: &[u8]) -> Option<(Line, &[u8])>
    ensures { Gives (λ x. (x.0, x.1.now)) result (parse_line bytes.now) }
{
    if let Some(rest) = after(b"{seq_trace,", bytes) {
        let (event, rest) = parse_event(rest)?;
        return Some((Line::Event(event), rest));
    }
    if let Some((act, rest)) = parse_act(bytes) {
        return Some((Line::Act(act), rest));
    }
    parse_rare(bytes)
}

/// Reads a whole line, without its newline.
#[tactic(auto, unfolding(crate::specs::Parsing::line_of))]
pub(crate) fn read_line(bytes: &[u8]) -> Option<Line>
    ensures { result ≡ line_of bytes.now }
{
    let (line, rest) = parse_line(bytes)?;
    if rest.is_empty() { Some(line) } else { None }
}
