//! Writes the line of an event: its place, its kind, serial and value, and what it follows.

ghost use Rattle.std.specs.Prelude.{◌≡◌, ◌++◌, Some};
ghost use Rattle.st_text.specs.Room.{line_room, HasRoom};
ghost use Rattle.st_text.specs.Spelling.{ended_line};
ghost use Rattle.st_text.specs.Writing.{WritesOn};
ghost use Rattle.st_pair.specs.Places.{event_at};
ghost use Rattle.seqtool_commands.specs.WhyWords.{head_words, hop_line, hop_words};

use crate::line_numbers::LineNumbers;
use crate::parts::{put_claim, put_depth, put_located, put_premises, put_what};
use crate::question::Direction;
use crate::trace::NumberedHops;
use node_hops::{Node, NodeHop};
use st_core::{ByteSink, Event, Label, Pid};
use st_text::{Buffer, Device, make_room, put_bytes};

/// Appends an event's depth, its place, and its kind, serial and value.
fn put_head(
    buffer: &mut Buffer,
    numbers: &LineNumbers,
    direction: Direction,
    node: Node,
    event: &Event,
)
    requires { HasRoom line_room buffer.old }
    ensures { buffer.new.items ≡ buffer.old.items
        ++ head_words numbers.now direction node.depth node.place.0 node.place.1 event.now }
{
    let (pid, index) = node.place;
    put_depth(buffer, direction, node.depth);
    put_located(buffer, numbers, pid, index);
    put_bytes(buffer, b"  ");
    put_what(buffer, event);
    put_bytes(buffer, b" ");
}

/// Appends what an event with the label follows, with its premises, and a newline.
fn put_sentence(buffer: &mut Buffer, numbers: &LineNumbers, pid: Pid, label: Label, hop: NodeHop)
    requires { HasRoom line_room buffer.old }
    ensures { buffer.new.items ≡ buffer.old.items
        ++ ended_line (hop_words numbers.now pid label hop) }
{
    put_claim(buffer, numbers, pid, label, hop);
    put_premises(buffer, hop.premises());
    put_bytes(buffer, b"\n");
}

/// Writes the line of the event at a node, in two parts, which together may take more than a
/// line's room.
pub(crate) fn write_text<W: ByteSink>(
    writer: &mut W,
    buffer: &mut Buffer,
    trace: &NumberedHops<'_>,
    direction: Direction,
    node: Node,
    event: &Event,
) -> Result<(), Device>
    requires { event_at trace.now node.place.0 node.place.1 ≡ Some event.now }
    ensures { WritesOn W.puts W.failed
        (hop_line trace.now direction node.depth node.place.0 node.place.1 event.now)
        writer.old writer.new buffer.old.items buffer.new.items result }
{
    let (pid, index) = node.place;
    let hop = trace.hop(pid, index, event);
    let numbers = trace.numbers();
    make_room(writer, buffer)?;
    put_head(buffer, numbers, direction, node, event);
    make_room(writer, buffer)?;
    put_sentence(buffer, numbers, pid, event.label, hop);
    Ok(())
}
