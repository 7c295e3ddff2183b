//! Writes the answer of `why` about an event that is there: a line for each event of the way or
//! the tree, and the last lines.

ghost use Rattle.std.specs.Prelude.{◌≡◌, IfOk};
ghost use Rattle.std.specs.List.{flat_map};
ghost use Rattle.st_text.specs.Writing.{WritesOn, WritesText};
ghost use Rattle.seqtool_commands.specs.Why.{answer_lines, node_line, nodes_from};

use crate::premise_lines::write_last_lines;
use crate::question::{Direction, Question};
use crate::text::write_text;
use crate::trace::NumberedHops;
use node_hops::{Node, tree, way};
use st_core::ByteSink;
use st_text::{Buffer, Device, flush};
use std::alloc::{AllocError, Global};

/// Returns the events of the way or the tree. Fails only if memory runs out.
pub(crate) fn nodes_from(
    alloc: Global,
    trace: &NumberedHops<'_>,
    question: Question,
) -> Result<Vec<Node>, AllocError>
    ensures { IfOk result (λ v. v.items ≡ nodes_from trace.now question) }
{
    let hops = trace.hops();
    match question.direction {
        Direction::Back => way(alloc, hops, question.reach, question.place),
        Direction::Forth => tree(alloc, hops, question.reach, question.place),
    }
}

/// Writes the line of the event at a node, if there is one.
fn write_node<W: ByteSink>(
    writer: &mut W,
    buffer: &mut Buffer,
    trace: &NumberedHops<'_>,
    question: Question,
    node: Node,
) -> Result<(), Device>
    ensures { WritesOn W.puts W.failed (node_line trace.now question node)
        writer.old writer.new buffer.old.items buffer.new.items result }
{
    match trace.event(node.place.0, node.place.1) {
        None => Ok(()),
        Some(event) => write_text(writer, buffer, trace, question.direction, node, &event),
    }
}

fn write_nodes<W: ByteSink>(
    writer: &mut W,
    buffer: &mut Buffer,
    trace: &NumberedHops<'_>,
    question: Question,
    nodes: &[Node],
) -> Result<(), Device>
    ensures { WritesOn W.puts W.failed (flat_map (node_line trace.now question) nodes.now)
        writer.old writer.new buffer.old.items buffer.new.items result }
{
    for node in nodes {
        write_node(writer, buffer, trace, question, *node)?;
    }
    Ok(())
}

/// Writes the lines of the nodes and the last lines.
fn write_answer<W: ByteSink>(
    writer: &mut W,
    buffer: &mut Buffer,
    trace: &NumberedHops<'_>,
    question: Question,
    nodes: &[Node],
) -> Result<(), Device>
    ensures { WritesOn W.puts W.failed (answer_lines trace.now question nodes.now)
        writer.old writer.new buffer.old.items buffer.new.items result }
{
    write_nodes(writer, buffer, trace, question, nodes)?;
    write_last_lines(writer, buffer, trace, nodes)
}

pub(crate) fn send_answer<W: ByteSink>(
    writer: &mut W,
    trace: &NumberedHops<'_>,
    question: Question,
    nodes: &[Node],
) -> Result<(), Device>
    ensures { WritesText W.puts W.failed (answer_lines trace.now question nodes.now)
        writer.old writer.new result }
{
    let mut buffer = Buffer::new();
    write_answer(writer, &mut buffer, trace, question, nodes)?;
    flush(writer, &mut buffer)
}
