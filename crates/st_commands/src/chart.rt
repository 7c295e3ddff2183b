//! The command `chart`: the messages of one label in the streams whose text the input is. The acts
//! in the input are ignored.

ghost use Rattle.std.specs.Prelude.{◌≡◌};
ghost use Rattle.st_pair.specs.Links.{IsPairing};
ghost use Rattle.st_pair.specs.Pairing.{IsPairFault};
ghost use Rattle.st_commands.specs.Charted.{IsCharted};
ghost use Rattle.st_commands.specs.Command.{Tells, call};
ghost use Rattle.st_commands.specs.Meaning.{MeansCharted, MeansNoChart, Performs};
ghost use Rattle.st_commands.specs.Parts.{ChartsTo, DrawsTo};
ghost use Rattle.st_text.specs.Limits.{standard};

use crate::answer::{tell_fault, tell_finding, tell_line};
use crate::lines::OutputLine;
use st_audit::unfit_by;
use st_chain::Chains;
use st_chart::{ChartFault, chart};
use st_core::{ByteSink, ByteSource, Label, Streams};
use st_order::{Item, order};
use st_pair::{PairFault, Pairing, pair};
use st_text::{Limits, ReadFault, read_within};
use std::alloc::Global;
use std::thread::Threads;

/// Writes the report of why streams aren't paired, and returns its status.
fn tell_unpaired<W: ByteSink>(
    streams: &Streams,
    label: Label,
    fault: PairFault,
    writer: &mut W,
) -> u8
    requires { IsPairFault streams.now fault }
    ensures { Tells (call W.ByteSink writer.old writer.new) (ChartsTo streams.now label) result }
{
    match unfit_by(fault) {
        Some(finding) => tell_finding(writer, streams, &finding),
        None => tell_fault(writer, ReadFault::Memory),
    }
}

/// Writes the chart of the items with the label, and returns its status.
fn tell_chart<W: ByteSink>(
    alloc: Global,
    streams: &Streams,
    chains: &Chains,
    items: &[Item],
    label: Label,
    writer: &mut W,
) -> u8
    requires { chains.now ≡ streams.now }
    ensures { Tells (call W.ByteSink writer.old writer.new)
        (DrawsTo streams.now label items.now) result }
{
    match chart(alloc, writer, streams, chains, items, label) {
        Ok(()) => 0,
        Err(ChartFault::NoLabel) => tell_line(writer, OutputLine::NoLabel(label), 1),
        Err(ChartFault::Memory) => tell_fault(writer, ReadFault::Memory),
        Err(ChartFault::Device) => 4,
    }
}

/// Writes the chart of streams that are paired, and returns its status.
fn chart_paired<H: Threads + Sync, W: ByteSink>(
    rt: &H,
    alloc: Global,
    streams: &Streams,
    pairing: &Pairing,
    label: Label,
    writer: &mut W,
) -> u8
    requires { IsPairing streams.now pairing.now }
    ensures { Tells (call W.ByteSink writer.old writer.new) (ChartsTo streams.now label) result }
{
    let Ok(chains) = Chains::new(alloc, streams, pairing) else {
        return tell_fault(writer, ReadFault::Memory);
    };
    match order(rt, alloc, streams, pairing) {
        Ok(items) => tell_chart(alloc, streams, &chains, items.as_slice(), label, writer),
        Err(_) => tell_fault(writer, ReadFault::Memory),
    }
}

/// Writes the chart of streams, and returns its status.
fn chart_streams<H: Threads + Sync, W: ByteSink>(
    rt: &H,
    alloc: Global,
    streams: &Streams,
    label: Label,
    writer: &mut W,
) -> u8
    ensures { Tells (call W.ByteSink writer.old writer.new) (ChartsTo streams.now label) result }
{
    match pair(alloc, streams) {
        Ok(pairing) => chart_paired(rt, alloc, streams, &pairing, label, writer),
        Err(fault) => tell_unpaired(streams, label, fault, writer),
    }
}

/// Reads a bundle within the standard limits and writes the chart of the label, with status 0. If
/// no item has the label, or the streams can't be paired, it says so with status 1. Faulty input is
/// 2; if memory runs out, or a reader or a writer fails, it is 4. It sorts on several threads.
pub fn run_chart<H: Threads + Sync, R: ByteSource, W: ByteSink>(
    rt: &H,
    alloc: Global,
    reader: &mut R,
    writer: &mut W,
    label: Label,
) -> u8
    ensures { Performs standard (call R.ByteSource reader.old reader.new)
        (call W.ByteSink writer.old writer.new)
        (IsCharted standard label) (MeansCharted standard label)
        (MeansNoChart standard label) result }
{
    match read_within(alloc, reader, Limits::STANDARD) {
        Ok(bundle) => chart_streams(rt, alloc, &bundle.streams, label, writer),
        Err(fault) => tell_fault(writer, fault),
    }
}
