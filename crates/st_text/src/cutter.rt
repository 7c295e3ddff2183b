//! Cuts the pieces of a text at their newlines. A line that is whole in its piece is read there;
//! of an unfinished line the cutter keeps no more than the longest line has. It doesn't count the
//! bytes.

ghost use Rattle.std.specs.Prelude.{◌≡◌, ◌<◌, ◌≤◌, ◌++◌, ◌∷◌, ◌||◌, [], List, ℕ, Bool, is_some};
ghost use Rattle.std.specs.Prelude.{None, Some, false, IfOk, OnOk, OnErr, vec_len, length};
ghost use Rattle.st_text.specs.declared.line.Line.{Line};
ghost use Rattle.st_text.specs.Parts.Cutter.{IsStateAfter, TakesSaid, header_of};
ghost use Rattle.st_text.specs.Fault.{cut};
ghost use Rattle.st_text.specs.Parsing.{line_of};
ghost use Rattle.st_text.specs.Parts.Cutter.{IsTail, HasNoNewline, longest};
ghost use Rattle.st_text.specs.declared.limits.Limits.{Limits};
ghost use Rattle.st_text.specs.Growth.{EndsKept, Grows};

use crate::builder::BundleBuilder;
use crate::bundle::Bundle;
use crate::fault::ReadFault;
use crate::finish::finish;
use crate::limits::Limits;
use crate::line::{Line, read_line};
use crate::step::Step;
use memchr::memchr;
use std::alloc::{AllocError, Global};

/// The length of the longest line: a receive event with the greatest number in each place.
const LONGEST: usize = 131;

/// The lines of the bytes so far, and the unfinished line.
#[derive(Debug, Drop)]
pub(crate) struct Cutter {
    pub(crate) alloc: Global,
    /// The unfinished line.
    pub(crate) tail: Vec<u8>,
    /// Whether the unfinished line is longer than any line can be; then it isn't kept.
    pub(crate) long: bool,
    /// The bundle of the lines so far; none before the header.
    pub(crate) builder: Option<BundleBuilder>,
    /// The fault of the first faulty line. Later bytes aren't looked at.
    pub(crate) fault: Option<ReadFault>,
    /// Whether memory ran out.
    pub(crate) out: bool,
    ghost short: { vec_len tail ≤ longest },
}

/// Returns whether a header is `seqtrace 2`, if the line is a header.
fn header_of(said: &Option<Line>) -> Option<bool>
    ensures { result ≡ header_of said.now }
{
    match said {
        Some(Line::Header(wide)) => Some(*wide),
        _ => None,
    }
}

/// Passes the next line on to the builder; `said` is `None` if its bytes aren't a line. The first
/// line has to be a header.
#[inline(always)]
fn pass_on(
    alloc: Global,
    limits: Limits,
    builder: &mut Option<BundleBuilder>,
    said: &Option<Line>,
) -> Step
    ensures { (ls : List Line) → IsStateAfter builder.old ls
        → TakesSaid limits ls said.now builder.new result }
{
    match builder {
        Some(builder) => builder.accept(limits, said),
        None => match header_of(said) {
            Some(wide) => {
                *builder = Some(BundleBuilder::new(alloc, wide));
                Step::Goes
            }
            None => Step::Stops(ReadFault::Line(1)),
        },
    }
}

/// Reads a line that began in an earlier piece, now that the rest of it is there, and clears
/// `tail`. Bytes longer than the longest line aren't a line.
fn whole_line(long: bool, tail: &mut Vec<u8>, rest: &[u8]) -> Result<Option<Line>, AllocError>
    requires { vec_len tail.old ≤ longest }
    ensures said { (t : List ℕ) → IsTail long tail.old.items t
        → IfOk result (λ s. s ≡ line_of (t ++ rest.now)) }
    ensures short { vec_len tail.new ≤ longest }
    ensures empty { OnOk result (tail.new.items ≡ []) }
    ensures err { OnErr result (long ≡ false) }
{
    if long {
        tail.clear();
        return Ok(None);
    }
    if rest.len() > LONGEST - tail.len() {
        tail.clear();
        return Ok(None);
    }
    tail.extend_from_slice(rest)?;
    let said = read_line(tail);
    tail.clear();
    Ok(said)
}

impl Cutter {
    ghost use Rattle.st_text.specs.Parts.CutterState.{HasTaken, HasTakenAs, Comes, AddsBytes};
    ghost use Rattle.st_text.specs.Parts.CutterState.{EndsOne};
    ghost use Rattle.st_text.specs.Answer.{IsReadResult};

    /// Makes a cutter that has taken no bytes. Takes no memory.
    pub(crate) fn new(alloc: Global) -> Cutter
        ensures holds { (limits : Limits) → HasTaken limits [] result }
        ensures fresh { result.out ≡ false }
    {
        Cutter {
            alloc,
            tail: Vec::new(alloc),
            long: false,
            builder: None,
            fault: None,
            out: false,
        }
    }

    /// Adds bytes without a newline to the unfinished line.
    fn keep(&mut self, rest: &[u8])
        requires going { self.old.out ≡ false }
        requires good { self.old.fault ≡ None }
        ensures fault { self.new.fault ≡ None }
        ensures holds { (limits : Limits) (bytes : List ℕ) → HasNoNewline rest.now
            → HasTaken limits bytes self.old
            → Comes limits (bytes ++ rest.now) self.new (AddsBytes limits bytes rest.now) }
    {
        if self.long {
            return;
        }
        if rest.len() > LONGEST - self.tail.len() {
            self.tail.clear();
            self.long = true;
            return;
        }
        if self.tail.extend_from_slice(rest).is_err() {
            self.out = true;
        }
    }

    /// Passes on the line that has just ended; `tail` is empty for the next one.
    #[inline(always)]
    fn pass_line(&mut self, limits: Limits, said: &Option<Line>)
        requires going { self.old.out ≡ false }
        requires good { self.old.fault ≡ None }
        requires short { self.old.long ≡ false }
        requires empty { self.old.tail.items ≡ [] }
        ensures { (bytes rest : List ℕ) (long : Bool) (kept : List ℕ) → HasNoNewline rest
            → (IsTail long kept (cut bytes).1 → said.now ≡ line_of ((cut bytes).1 ++ rest))
            → HasTakenAs limits self.old.out self.old.fault bytes long kept self.old.builder
            → Comes limits (bytes ++ (rest ++ 10 ∷ [])) self.new
            (EndsKept limits (bytes ++ (rest ++ 10 ∷ []))) }
    {
        match pass_on(self.alloc, limits, &mut self.builder, said) {
            Step::Goes => {}
            Step::Stops(fault) => self.fault = Some(fault),
            Step::Halts => self.out = true,
        }
    }

    /// Takes the rest of a line that began in an earlier piece, and its newline.
    fn end_begun_line(&mut self, limits: Limits, rest: &[u8])
        requires going { self.old.out ≡ false }
        requires good { self.old.fault ≡ None }
        requires begun { self.old.long ≡ false → 0 < length self.old.tail.items }
        ensures { (bytes : List ℕ) → HasNoNewline rest.now → HasTaken limits bytes self.old
            → Comes limits (bytes ++ (rest.now ++ 10 ∷ [])) self.new
            (EndsOne limits bytes rest.now) }
    {
        let Ok(said) = whole_line(self.long, &mut self.tail, rest) else {
            self.out = true;
            return;
        };
        self.long = false;
        self.pass_line(limits, &said);
    }

    /// Takes the rest of the unfinished line, and its newline. Most lines are whole in their piece,
    /// and are read there.
    #[inline(always)]
    fn end_line(&mut self, limits: Limits, rest: &[u8])
        requires going { self.old.out ≡ false }
        requires good { self.old.fault ≡ None }
        ensures { (bytes : List ℕ) → HasNoNewline rest.now → HasTaken limits bytes self.old
            → Comes limits (bytes ++ (rest.now ++ 10 ∷ [])) self.new
            (EndsOne limits bytes rest.now) }
    {
        if self.long || !self.tail.is_empty() {
            self.end_begun_line(limits, rest);
            return;
        }
        self.pass_line(limits, &read_line(rest));
    }

    /// Returns whether a line is faulty or memory ran out, so that more bytes change nothing.
    fn is_over(&self) -> bool
        ensures { result ≡ (self.now.out || is_some self.now.fault) }
    {
        self.out || self.fault.is_some()
    }

    /// Passes on the lines that end in a piece, and keeps the bytes after its last newline.
    pub(crate) fn pass_piece(&mut self, limits: Limits, piece: &[u8])
        ensures { (bytes : List ℕ) → HasTaken limits bytes self.old
            → Comes limits (bytes ++ piece.now) self.new
            (self.old.out ≡ false → Grows limits bytes piece.now) }
    {
        let mut rest = piece;
        while !self.is_over() {
            let Some(i) = memchr(b'\n', rest) else {
                self.keep(rest);
                return;
            };
            let (line, more) = rest.split_at(i);
            self.end_line(limits, line);
            rest = more.split_at(1).1;
        }
    }

    /// Returns the bundle whose text the pieces were, or why there is none.
    pub(crate) fn end(self) -> Result<Bundle, ReadFault>
        requires { self.out ≡ false }
        ensures { (limits : Limits) (bytes : List ℕ) → length bytes ≤ limits.bytes
            → HasTaken limits bytes self
            → IsReadResult limits bytes result }
    {
        let Cutter {
            alloc: _,
            tail,
            long,
            builder,
            fault,
            out: _,
        } = self;
        if let Some(fault) = fault {
            return Err(fault);
        }
        if long {
            return Err(ReadFault::Truncated);
        }
        if !tail.is_empty() {
            return Err(ReadFault::Truncated);
        }
        match builder {
            None => Err(ReadFault::Truncated),
            Some(builder) => finish(builder),
        }
    }
}
