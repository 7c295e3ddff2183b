//! The command `check --node`: writes the verdict about a bundle by the rules of a standard node.

ghost use Rattle.st_commands.specs.Command.{Delivers, Tells, call};
ghost use Rattle.st_commands.specs.Meaning.{Performs};
ghost use Rattle.st_text.specs.Contents.{contents};
ghost use Rattle.st_text.specs.Limits.{greater};
ghost use Rattle.seqtool_commands.specs.NodeCheck.{node_judged, ChecksBundle, ChecksOnNode};
ghost use Rattle.seqtool_commands.specs.NodeCheck.{IsNodeChecked, MeansNodeNo, MeansNodeYes};

use crate::lines::OutputLine;
use node_check::{NodeCheckFault, NodeVerdict, check_node};
use st_commands::{tell_fault, tell_line};
use st_core::{Act, ByteSink, ByteSource, Streams};
use st_text::{Bundle, Limits, ReadFault, read_within};
use std::alloc::Global;

fn tell_node_verdict<W: ByteSink>(writer: &mut W, verdict: NodeVerdict) -> u8
    ensures { Delivers (call W.ByteSink writer.old writer.new) (node_judged verdict) result }
{
    match verdict {
        NodeVerdict::Stuck(number) => tell_line(writer, OutputLine::Stuck(number), 1),
        NodeVerdict::Differs(number) => tell_line(writer, OutputLine::Differs(number), 1),
        NodeVerdict::Left(pid) => tell_line(writer, OutputLine::Left(pid), 1),
        NodeVerdict::Yes => tell_line(writer, OutputLine::Yes, 0),
    }
}

/// Writes the verdict of streams and acts, and returns its status.
fn check_acts<W: ByteSink>(alloc: Global, streams: &Streams, acts: &[Act], writer: &mut W) -> u8
    ensures { Tells (call W.ByteSink writer.old writer.new)
        (ChecksOnNode streams.now acts.now) result }
{
    match check_node(alloc, streams, acts) {
        Ok(verdict) => tell_node_verdict(writer, verdict),
        Err(NodeCheckFault::Memory) => tell_fault(writer, ReadFault::Memory),
    }
}

fn check_bundle<W: ByteSink>(alloc: Global, bundle: &Bundle, writer: &mut W) -> u8
    ensures { Tells (call W.ByteSink writer.old writer.new)
        (ChecksBundle (contents bundle.now)) result }
{
    match &bundle.acts {
        Some(acts) => check_acts(alloc, &bundle.streams, acts.as_slice(), writer),
        None => tell_line(writer, OutputLine::NoActs, 2),
    }
}

/// Reads a bundle within the greater limits and writes its verdict by the rules of a standard
/// node: `yes` with status 0, or a no with status 1. Returns 2 for faulty input, and 4 if memory
/// runs out, or the reader or the writer fails.
pub fn run_check_node<R: ByteSource, W: ByteSink>(
    alloc: Global,
    reader: &mut R,
    writer: &mut W,
) -> u8
    ensures { Performs greater (call R.ByteSource reader.old reader.new)
        (call W.ByteSink writer.old writer.new)
        IsNodeChecked MeansNodeYes MeansNodeNo result }
{
    match read_within(alloc, reader, Limits::GREATER) {
        Ok(bundle) => check_bundle(alloc, &bundle, writer),
        Err(fault) => tell_fault(writer, fault),
    }
}
