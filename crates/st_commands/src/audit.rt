//! The command `audit`: a certificate for the streams whose text the input is, or an event and the
//! reason why none was found. The acts in the input are ignored.

ghost use Rattle.st_commands.specs.Audited.{IsAudited};
ghost use Rattle.st_commands.specs.Command.{Tells, call};
ghost use Rattle.st_commands.specs.Meaning.{MeansFits, MeansUnfit, Performs};
ghost use Rattle.st_commands.specs.Parts.{AuditsTo};
ghost use Rattle.st_text.specs.Limits.{standard};

use crate::answer::{tell_fault, tell_finding};
use crate::check::TOP;
use st_audit::{AuditFault, audit};
use st_core::{ByteSink, ByteSource, Streams};
use st_text::{Limits, ReadFault, read_within};
use std::alloc::Global;
use std::thread::Threads;

/// Writes what is found of streams, and returns its status.
fn audit_streams<H: Threads + Sync, W: ByteSink>(
    rt: &H,
    alloc: Global,
    streams: &Streams,
    writer: &mut W,
) -> u8
    ensures { Tells (call W.ByteSink writer.old writer.new) (AuditsTo streams.now) result }
{
    match audit::<TOP>(rt, alloc, streams) {
        Ok(finding) => tell_finding(writer, streams, &finding),
        Err(AuditFault::Memory) => tell_fault(writer, ReadFault::Memory),
    }
}

/// Reads a bundle within these limits and writes its streams with a certificate's acts, with status
/// 0, or an event and a reason, with status 1. Faulty input is 2; if memory runs out, or a reader
/// or a writer fails, it is 4. It sorts on several threads.
pub fn run_audit_within<H: Threads + Sync, R: ByteSource, W: ByteSink>(
    rt: &H,
    alloc: Global,
    reader: &mut R,
    writer: &mut W,
    limits: Limits,
) -> u8
    ensures { Performs limits (call R.ByteSource reader.old reader.new)
        (call W.ByteSink writer.old writer.new)
        (IsAudited limits) (MeansFits limits) (MeansUnfit limits) result }
{
    match read_within(alloc, reader, limits) {
        Ok(bundle) => audit_streams(rt, alloc, &bundle.streams, writer),
        Err(fault) => tell_fault(writer, fault),
    }
}

/// Does what `run_audit_within` does, within the standard limits.
pub fn run_audit<H: Threads + Sync, R: ByteSource, W: ByteSink>(
    rt: &H,
    alloc: Global,
    reader: &mut R,
    writer: &mut W,
) -> u8
    ensures { Performs standard (call R.ByteSource reader.old reader.new)
        (call W.ByteSink writer.old writer.new)
        (IsAudited standard) (MeansFits standard) (MeansUnfit standard) result }
{
    run_audit_within(rt, alloc, reader, writer, Limits::STANDARD)
}
