//! Appends the parts of a line to the buffer: places, kinds and sentences. Each caller makes sure
//! that there is room.

ghost use Rattle.std.specs.Prelude.{◌≡◌};
ghost use Rattle.st_text.specs.Room.{HasRoom, Puts};
ghost use Rattle.st_order.specs.declared.item.Item.TheVariants as item;
ghost use Rattle.st_chart.specs.Chart.{item_word};
ghost use Rattle.st_chart.specs.Room.{item_word_room};
ghost use Rattle.seqtool_commands.specs.WhyLines.{begins_label_room, claim_room, depth_room};
ghost use Rattle.seqtool_commands.specs.WhyLines.{had_received_room, located_room, premise_room};
ghost use Rattle.seqtool_commands.specs.WhyLines.{since_room, what_room};
ghost use Rattle.seqtool_commands.specs.WhyWords.{begins_label_words, claim_words, depth_words};
ghost use Rattle.seqtool_commands.specs.WhyWords.{had_received_words, line_number_at};
ghost use Rattle.seqtool_commands.specs.WhyWords.{located_words, premise_words, since_words};
ghost use Rattle.seqtool_commands.specs.WhyWords.{what_words};

use crate::line_numbers::LineNumbers;
use crate::question::Direction;
use node_hops::{NodeHop, NodePremises};
use st_chart::put_place;
use st_core::{Event, Kind, Label, Pid};
use st_text::{Buffer, put_bytes, put_number, put_serial};

/// The greatest depth that spaces show: more would move the line off the screen, and a chain of a
/// million events would take as many spaces squared.
const INDENT: u64 = 16;

/// Returns the line of an event, 0 if there is none.
pub(crate) fn line_number_at(numbers: &LineNumbers, pid: Pid, index: u64) -> u64
    ensures { result ≡ line_number_at numbers.now pid index }
{
    match numbers.line(pid, index) {
        None => 0,
        Some(line) => line,
    }
}

/// Appends an event's process, its index there, and its line of the text.
pub(crate) fn put_located(buffer: &mut Buffer, numbers: &LineNumbers, pid: Pid, index: u64)
    requires { HasRoom located_room buffer.old }
    ensures { Puts located_room (located_words numbers.now pid index) buffer.old buffer.new }
{
    put_place(buffer, pid, index);
    put_bytes(buffer, b", line ");
    put_number(buffer, line_number_at(numbers, pid, index));
}

/// Appends the depth of an event in a tree.
pub(crate) fn put_depth(buffer: &mut Buffer, direction: Direction, depth: u64)
    requires { HasRoom depth_room buffer.old }
    ensures { Puts depth_room (depth_words direction depth) buffer.old buffer.new }
{
    match direction {
        Direction::Back => {}
        Direction::Forth => {
            put_number(buffer, depth);
            put_bytes(buffer, b" ");
            let indent = depth.min(INDENT) as usize;
            put_bytes(buffer, &b"                "[..indent]);
        }
    }
}

fn put_kind(buffer: &mut Buffer, event: &Event)
    requires { HasRoom item_word_room buffer.old }
    ensures { Puts item_word_room
        (item_word (item.Reported event.now.from 0) event.now.kind) buffer.old buffer.new }
{
    match event.kind {
        Kind::Send => put_bytes(buffer, b"send    "),
        Kind::Receive => put_bytes(buffer, b"receive "),
        Kind::Print => put_bytes(buffer, b"print   "),
    }
}

/// Appends an event's kind, its serial and its value.
pub(crate) fn put_what(buffer: &mut Buffer, event: &Event)
    requires { HasRoom what_room buffer.old }
    ensures { Puts what_room (what_words event.now) buffer.old buffer.new }
{
    put_kind(buffer, event);
    put_bytes(buffer, b" ");
    put_serial(buffer, event.serial);
    put_bytes(buffer, b" ");
    put_number(buffer, event.value);
}

/// Appends that a process begins the label, or sets it on its token.
fn put_begins_label(buffer: &mut Buffer, label: Label)
    requires { HasRoom begins_label_room buffer.old }
    ensures { Puts begins_label_room (begins_label_words label) buffer.old buffer.new }
{
    put_bytes(buffer, b"begins label ");
    put_number(buffer, u64::from(label.0));
    put_bytes(buffer, b" here, or set it on its token; ");
}

/// Appends the last receive before, which has another label.
fn put_had_received(
    buffer: &mut Buffer,
    numbers: &LineNumbers,
    pid: Pid,
    index: u64,
    received: Label,
)
    requires { HasRoom had_received_room buffer.old }
    ensures { Puts had_received_room
        (had_received_words numbers.now pid index received) buffer.old buffer.new }
{
    put_bytes(buffer, b"it had last received ");
    put_located(buffer, numbers, pid, index);
    put_bytes(buffer, b" of label ");
    put_number(buffer, u64::from(received.0));
}

/// Appends the last of a process's first `count` events, if there is one.
fn put_since(buffer: &mut Buffer, numbers: &LineNumbers, pid: Pid, count: u64)
    requires { HasRoom since_room buffer.old }
    ensures { Puts since_room (since_words numbers.now pid count) buffer.old buffer.new }
{
    if count == 0 {
        return;
    }
    put_bytes(buffer, b"since ");
    put_located(buffer, numbers, pid, count - 1);
    put_bytes(buffer, b", ");
}

/// Appends what an event with the label follows.
pub(crate) fn put_claim(
    buffer: &mut Buffer,
    numbers: &LineNumbers,
    pid: Pid,
    label: Label,
    hop: NodeHop,
)
    requires { HasRoom claim_room buffer.old }
    ensures { Puts claim_room (claim_words numbers.now pid label hop) buffer.old buffer.new }
{
    match hop {
        NodeHop::Sent(from, index) => {
            put_bytes(buffer, b"after ");
            put_located(buffer, numbers, from, index);
        }
        NodeHop::Unsent => put_bytes(buffer, b"its send wasn't reported"),
        NodeHop::After(index) => {
            put_bytes(buffer, b"after ");
            put_located(buffer, numbers, pid, index);
        }
        NodeHop::OtherLabel(index, received) => {
            put_begins_label(buffer, label);
            put_had_received(buffer, numbers, pid, index, received);
        }
        NodeHop::Begins => put_bytes(buffer, b"begins here"),
        NodeHop::Moved(before) => {
            put_since(buffer, numbers, pid, before);
            put_bytes(
                buffer,
                b"its process took a token whose receive wasn't reported, put one back or spawned",
            );
        }
    }
}

/// Appends the numbers of the premises that a sentence rests on.
pub(crate) fn put_premises(buffer: &mut Buffer, premises: NodePremises)
    requires { HasRoom premise_room buffer.old }
    ensures { Puts premise_room (premise_words premises) buffer.old buffer.new }
{
    match premises {
        NodePremises::Nothing => {}
        NodePremises::KeptCounters => put_bytes(buffer, b" (1, 2)"),
        NodePremises::KeptToken => put_bytes(buffer, b" (1, 2, 3)"),
        NodePremises::SendsReported => put_bytes(buffer, b" (4)"),
    }
}
