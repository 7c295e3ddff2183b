//! The command `check`: the verdict of the bundle whose text the input is.

ghost use Rattle.st_text.specs.Contents.{contents};
ghost use Rattle.st_commands.specs.Checked.{IsChecked};
ghost use Rattle.st_commands.specs.Command.{Tells, call};
ghost use Rattle.st_commands.specs.Meaning.{MeansYes, MeansNo, Performs};
ghost use Rattle.st_commands.specs.Parts.{ChecksTo, OfBundle};
ghost use Rattle.st_text.specs.Limits.{standard};

use crate::answer::{tell_fault, tell_line, tell_verdict};
use crate::lines::OutputLine;
use st_check::{CheckFault, check};
use st_core::{Act, ByteSink, ByteSource, Streams};
use st_text::{Bundle, Limits, ReadFault, read_within};
use std::alloc::Global;

/// The greatest count that a clock of the program can have.
pub const TOP: u64 = u64::MAX;

/// Writes the verdict of streams and acts, and returns its status.
fn check_acts<W: ByteSink>(alloc: Global, streams: &Streams, acts: &[Act], writer: &mut W) -> u8
    ensures { Tells (call W.ByteSink writer.old writer.new) (ChecksTo streams.now acts.now) result }
{
    match check::<TOP>(alloc, streams, acts) {
        Ok(verdict) => tell_verdict(writer, &verdict),
        Err(CheckFault::Memory) => tell_fault(writer, ReadFault::Memory),
    }
}

/// Writes the verdict of a bundle, and returns its status.
fn check_bundle<W: ByteSink>(alloc: Global, bundle: &Bundle, writer: &mut W) -> u8
    ensures { Tells (call W.ByteSink writer.old writer.new)
        (OfBundle ChecksTo (contents bundle.now)) result }
{
    match &bundle.acts {
        Some(acts) => check_acts(alloc, &bundle.streams, acts.as_slice(), writer),
        None => tell_line(writer, OutputLine::NoActs, 2),
    }
}

/// Reads a bundle within these limits and writes its verdict: `yes` and the pairs with status 0, or
/// a no with status 1. Faulty input is 2; if memory runs out, or a reader or a writer fails, it is
/// 4.
pub fn run_check_within<R: ByteSource, W: ByteSink>(
    alloc: Global,
    reader: &mut R,
    writer: &mut W,
    limits: Limits,
) -> u8
    ensures { Performs limits (call R.ByteSource reader.old reader.new)
        (call W.ByteSink writer.old writer.new)
        (IsChecked limits) (MeansYes limits) (MeansNo limits) result }
{
    match read_within(alloc, reader, limits) {
        Ok(bundle) => check_bundle(alloc, &bundle, writer),
        Err(fault) => tell_fault(writer, fault),
    }
}

/// Does what `run_check_within` does, within the standard limits.
pub fn run_check<R: ByteSource, W: ByteSink>(alloc: Global, reader: &mut R, writer: &mut W) -> u8
    ensures { Performs standard (call R.ByteSource reader.old reader.new)
        (call W.ByteSink writer.old writer.new)
        (IsChecked standard) (MeansYes standard) (MeansNo standard) result }
{
    run_check_within(alloc, reader, writer, Limits::STANDARD)
}
