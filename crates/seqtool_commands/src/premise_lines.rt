//! Writes the last lines of `why`: the runs in which the sentences hold, and their premises.

ghost use Rattle.std.specs.Prelude.{◌≡◌};
ghost use Rattle.std.specs.List.{flat_map, list_any};
ghost use Rattle.st_text.specs.Writing.{WritesOn};
ghost use Rattle.seqtool_commands.specs.Why.{last_lines, premise_line, rests_on};

use crate::lines::OutputLine;
use crate::premise::Premise;
use crate::trace::NumberedHops;
use node_hops::Node;
use st_core::ByteSink;
use st_text::{Buffer, Device, write_line};

fn rests_on(trace: &NumberedHops<'_>, premise: Premise, node: Node) -> bool
    ensures { result ≡ rests_on trace.now premise node }
{
    let (pid, index) = node.place;
    match trace.event(pid, index) {
        None => false,
        Some(event) => premise.is_part_of(trace.hop(pid, index, &event).premises()),
    }
}

fn is_used(trace: &NumberedHops<'_>, premise: Premise, nodes: &[Node]) -> bool
    ensures { result ≡ list_any (rests_on trace.now premise) nodes.now }
{
    for node in nodes {
        if rests_on(trace, premise, *node) {
            return true;
        }
    }
    false
}

/// Writes the line of a premise, if a hop rests on it.
fn write_premise<W: ByteSink>(
    writer: &mut W,
    buffer: &mut Buffer,
    trace: &NumberedHops<'_>,
    nodes: &[Node],
    premise: Premise,
) -> Result<(), Device>
    ensures { WritesOn W.puts W.failed (premise_line trace.now nodes.now premise)
        writer.old writer.new buffer.old.items buffer.new.items result }
{
    if is_used(trace, premise, nodes) {
        write_line(writer, buffer, OutputLine::Premise(premise))
    } else {
        Ok(())
    }
}

/// Writes the lines of the premises on which a hop rests.
fn write_premises<W: ByteSink>(
    writer: &mut W,
    buffer: &mut Buffer,
    trace: &NumberedHops<'_>,
    nodes: &[Node],
    premises: &[Premise],
) -> Result<(), Device>
    ensures { WritesOn W.puts W.failed
        (flat_map (premise_line trace.now nodes.now) premises.now)
        writer.old writer.new buffer.old.items buffer.new.items result }
{
    for premise in premises {
        write_premise(writer, buffer, trace, nodes, *premise)?;
    }
    Ok(())
}

/// Writes the line about all runs, and those of the premises.
pub(crate) fn write_last_lines<W: ByteSink>(
    writer: &mut W,
    buffer: &mut Buffer,
    trace: &NumberedHops<'_>,
    nodes: &[Node],
) -> Result<(), Device>
    ensures { WritesOn W.puts W.failed (last_lines trace.now nodes.now)
        writer.old writer.new buffer.old.items buffer.new.items result }
{
    write_line(writer, buffer, OutputLine::Runs)?;
    let premises = [
        Premise::ReportsTakes,
        Premise::KeepsCounters,
        Premise::BeginsNothing,
        Premise::ReportsLike,
    ];
    write_premises(writer, buffer, trace, nodes, &premises)
}
