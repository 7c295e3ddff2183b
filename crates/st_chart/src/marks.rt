//! The parts of a chart's line for an item.

ghost use Rattle.std.specs.Prelude.{◌≡◌, ◌≤◌, ◌+◌, ◌++◌, codes};
ghost use Rattle.st_text.specs.Room.{line_room, HasRoom, Puts};
ghost use Rattle.st_text.specs.Spelling.{ended_line};
ghost use Rattle.st_chart.specs.Chart.{letter, mark, item_word, cause_words, origin_words};
ghost use Rattle.st_chart.specs.Parts.{bars};
ghost use Rattle.st_chart.specs.Chart.{item_words};
ghost use Rattle.st_chart.specs.Room.{item_word_room, origin_room, item_room};

use crate::charted_item::{ChartedItem, is_end};
use crate::words::put_place;
use st_chain::{Cause, Chains};
use st_core::{Kind, Pid};
use st_order::Item;
use st_text::{Buffer, put_bytes, put_number, put_serial};

/// The most lanes whose bars are written at once, which take 1,024 bytes.
pub(crate) const RUN: usize = 256;

static BARS: [[u8; 4]; RUN] = [*b"   |"; RUN];

pub(crate) fn bars_of(count: usize) -> &'static [u8]
    requires { count ≤ 256 }
    ensures { result.now ≡ bars count }
{
    BARS[..count].as_flattened()
}

/// Returns the mark in the lane at which an item happened.
fn letter_of(item: Item, kind: Kind) -> &'static [u8]
    ensures { result.now ≡ letter item kind }
{
    match item {
        Item::Hidden(_, _) => b"   H",
        Item::Reported(_, _) => match kind {
            Kind::Send => b"   S",
            Kind::Receive => b"   R",
            Kind::Print => b"   P",
        },
    }
}

pub(crate) fn mark_of(charted: &ChartedItem, lane: Pid) -> &'static [u8]
    ensures { result.now ≡ mark charted.now lane }
{
    if charted.is_at(lane) {
        letter_of(charted.item, charted.event.kind)
    } else if is_end(&charted.event, lane) {
        b"   ."
    } else {
        b"   |"
    }
}

/// Appends the kind of an item.
fn put_item_word(buffer: &mut Buffer, item: Item, kind: Kind)
    requires { HasRoom item_word_room buffer.old }
    ensures { Puts item_word_room (item_word item kind) buffer.old buffer.new }
{
    match item {
        Item::Hidden(_, _) => put_bytes(buffer, b"hidden  "),
        Item::Reported(_, _) => match kind {
            Kind::Send => put_bytes(buffer, b"send    "),
            Kind::Receive => put_bytes(buffer, b"receive "),
            Kind::Print => put_bytes(buffer, b"print   "),
        },
    }
}

fn put_cause(buffer: &mut Buffer, cause: Option<Cause>)
    requires { HasRoom origin_room buffer.old }
    ensures { Puts origin_room (cause_words cause) buffer.old buffer.new }
{
    match cause {
        None => {}
        Some(Cause::Start) => put_bytes(buffer, b"start"),
        Some(Cause::Event(pid, index)) => {
            put_bytes(buffer, b"after ");
            put_place(buffer, pid, index);
        }
        Some(Cause::Hidden) => put_bytes(buffer, b"after hidden"),
    }
}

fn put_origin(buffer: &mut Buffer, chains: &Chains, item: Item)
    requires { HasRoom origin_room buffer.old }
    ensures { Puts origin_room (origin_words chains.now item) buffer.old buffer.new }
{
    match item {
        Item::Reported(pid, index) => put_cause(buffer, chains.cause(pid, index)),
        Item::Hidden(_, _) => put_bytes(buffer, b"unseen"),
    }
}

/// Appends an item's kind, serial, value and cause.
fn put_item_words(buffer: &mut Buffer, chains: &Chains, charted: &ChartedItem)
    requires { HasRoom item_room buffer.old }
    ensures { Puts item_room (item_words chains.now charted.now) buffer.old buffer.new }
{
    put_item_word(buffer, charted.item, charted.event.kind);
    put_bytes(buffer, b" ");
    put_serial(buffer, charted.event.serial);
    put_bytes(buffer, b" ");
    put_number(buffer, charted.event.value);
    put_bytes(buffer, b" ");
    put_origin(buffer, chains, charted.item);
}

/// Appends the part of an item's line after the marks.
pub(crate) fn put_item(buffer: &mut Buffer, chains: &Chains, charted: &ChartedItem)
    requires { HasRoom line_room buffer.old }
    ensures { buffer.new.items
        ≡ buffer.old.items ++ ended_line (codes "  " ++ item_words chains.now charted.now) }
{
    put_bytes(buffer, b"  ");
    put_item_words(buffer, chains, charted);
    put_bytes(buffer, b"\n");
}
