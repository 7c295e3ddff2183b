//! The command `replay`: what the acts of the input's bundle report. The events in the input are
//! ignored.

ghost use Rattle.st_text.specs.Contents.{contents};
ghost use Rattle.st_commands.specs.Command.{Delivers, Tells, call};
ghost use Rattle.st_commands.specs.Meaning.{MeansReplayed, NeverMeant, Performs};
ghost use Rattle.st_commands.specs.Parts.{OfBundle, ReplaysTo, reports_output};
ghost use Rattle.st_commands.specs.Replayed.{IsReplayed};
ghost use Rattle.st_text.specs.Limits.{standard};

use crate::answer::{tell_bundle, tell_fault, tell_line};
use crate::check::TOP;
use crate::lines::OutputLine;
use st_check::{ReplayFault, Reports, reports};
use st_core::{Act, ByteSink, ByteSource, Streams};
use st_text::{Bundle, Limits, ReadFault, read_within};
use std::alloc::Global;

/// Writes what acts report, and returns its status.
fn tell_reports<W: ByteSink>(writer: &mut W, reports: &Reports, acts: &[Act]) -> u8
    ensures { Delivers (call W.ByteSink writer.old writer.new)
        (reports_output reports.now acts.now) result }
{
    match reports {
        Reports::Ran(streams) => tell_bundle(writer, streams, acts),
        Reports::Stuck(n) => tell_line(writer, OutputLine::Stuck(*n), 1),
    }
}

/// Writes what the acts report in a run over the streams' processes, and returns its status.
fn replay_acts<W: ByteSink>(alloc: Global, streams: &Streams, acts: &[Act], writer: &mut W) -> u8
    ensures { Tells (call W.ByteSink writer.old writer.new)
        (ReplaysTo streams.now acts.now) result }
{
    match reports::<TOP>(alloc, streams.pids(), acts) {
        Ok(reports) => tell_reports(writer, &reports, acts),
        Err(ReplayFault::Memory) => tell_fault(writer, ReadFault::Memory),
        Err(ReplayFault::NotRising) => unreachable!(),
    }
}

/// Writes what a bundle's acts report, and returns its status.
fn replay_bundle<W: ByteSink>(alloc: Global, bundle: &Bundle, writer: &mut W) -> u8
    ensures { Tells (call W.ByteSink writer.old writer.new)
        (OfBundle ReplaysTo (contents bundle.now)) result }
{
    match &bundle.acts {
        Some(acts) => replay_acts(alloc, &bundle.streams, acts.as_slice(), writer),
        None => tell_line(writer, OutputLine::NoActs, 2),
    }
}

/// Reads a bundle within the standard limits and writes the bundle of what its acts report, with
/// status 0. An act without a step would be status 1, but there is none, since the limits let fewer
/// acts pass than a clock has counts. Faulty input is 2; if memory runs out, or a reader or a
/// writer fails, it is 4.
pub fn run_replay<R: ByteSource, W: ByteSink>(alloc: Global, reader: &mut R, writer: &mut W) -> u8
    ensures { Performs standard (call R.ByteSource reader.old reader.new)
        (call W.ByteSink writer.old writer.new)
        (IsReplayed standard) (MeansReplayed standard) NeverMeant result }
{
    match read_within(alloc, reader, Limits::STANDARD) {
        Ok(bundle) => replay_bundle(alloc, &bundle, writer),
        Err(fault) => tell_fault(writer, fault),
    }
}
