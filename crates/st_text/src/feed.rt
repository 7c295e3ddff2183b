//! A reader of a bundle's text that takes it in pieces, however it is cut. The feed counts the
//! bytes, and its cutter takes the lines.

ghost use Rattle.std.specs.Prelude.{◌≡◌, ◌≤◌, ◌++◌, [], List, ℕ, Some, None, Err};
ghost use Rattle.st_text.specs.Growth.{Grows};
ghost use Rattle.st_text.specs.Limits.{standard};

use crate::bundle::Bundle;
use crate::cutter::Cutter;
use crate::fault::ReadFault;
use crate::limits::Limits;
use std::alloc::Global;

/// A reader that takes a bundle's text in pieces. It keeps the bundle of the lines so far, and of
/// the unfinished line no more than the longest line has.
#[derive(Debug, Drop)]
pub struct Feed {
    limits: Limits,
    count: u64,
    /// Whether there were more bytes than the limits allow.
    large: bool,
    cutter: Cutter,
    ghost small: { count ≤ limits.bytes },
}

impl Feed {
    ghost use Rattle.st_text.specs.declared.fault.ReadFault.{ReadFault};
    ghost use Rattle.st_text.specs.Fed.{WasFed, fed_refusal, answer_of};
    ghost use Rattle.st_text.specs.Answer.{IsReadResultOrMemory, IsReadResult};
    ghost use Rattle.st_text.specs.declared.fault.ReadFault.TheVariants as faults;

    /// Makes a feed without bytes, within the standard limits. Takes no memory.
    pub fn new(alloc: Global) -> Feed
        ensures limits { result.limits ≡ standard }
        ensures fed { WasFed [] result }
        ensures fresh { fed_refusal result ≡ None }
    {
        Feed::within(alloc, Limits::STANDARD)
    }

    /// Makes a feed without bytes, within these limits. Takes no memory.
    pub fn within(alloc: Global, limits: Limits) -> Feed
        ensures limits { result.limits ≡ limits }
        ensures fed { WasFed [] result }
        ensures fresh { fed_refusal result ≡ None }
    {
        Feed {
            limits,
            count: 0,
            large: false,
            cutter: Cutter::new(alloc),
        }
    }

    /// Takes the next piece of the text. Fails with `TooLarge` at the first byte too many, and
    /// with `Memory` if memory runs out; every later call returns the same fault. Other faults
    /// come from `end`.
    pub fn piece(&mut self, piece: &[u8]) -> Result<(), ReadFault>
        ensures limits { self.new.limits ≡ self.old.limits }
        // It doesn't matter how the text is cut into pieces.
        ensures fed { (bytes : List ℕ) → WasFed bytes self.old
            → WasFed (bytes ++ piece.now) self.new }
        ensures answer { result ≡ answer_of (fed_refusal self.new) }
        ensures again { (f : ReadFault) → fed_refusal self.old ≡ Some f
            → fed_refusal self.new ≡ Some f }
        ensures memory { (bytes : List ℕ) → WasFed bytes self.old → fed_refusal self.old ≡ None
            → fed_refusal self.new ≡ Some faults.Memory → Grows self.old.limits bytes piece.now }
    {
        if self.large {
            return Err(ReadFault::TooLarge);
        }
        if self.cutter.out {
            return Err(ReadFault::Memory);
        }
        let len = piece.len() as u64;
        if len > self.limits.bytes - self.count {
            self.large = true;
            return Err(ReadFault::TooLarge);
        }
        self.count += len;
        self.cutter.pass_piece(self.limits, piece);
        if self.cutter.out {
            return Err(ReadFault::Memory);
        }
        Ok(())
    }

    /// Returns the bundle whose text the pieces were, or why there is none. Takes no memory.
    pub fn end(self) -> Result<Bundle, ReadFault>
        ensures answers { (bytes : List ℕ) → WasFed bytes self
            → IsReadResultOrMemory self.limits bytes result }
        ensures exact { (bytes : List ℕ) → WasFed bytes self → fed_refusal self ≡ None
            → IsReadResult self.limits bytes result }
        ensures again { (f : ReadFault) → fed_refusal self ≡ Some f → result ≡ Err f }
    {
        let Feed {
            limits: _,
            count: _,
            large,
            cutter,
        } = self;
        if large {
            return Err(ReadFault::TooLarge);
        }
        if cutter.out {
            return Err(ReadFault::Memory);
        }
        cutter.end()
    }
}
