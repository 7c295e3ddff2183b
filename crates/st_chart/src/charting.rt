//! The chart of one label.

ghost use Rattle.std.specs.Prelude.{◌≡◌, ◌↔◌, ◌+◌, ◌++◌, false, Err};
ghost use Rattle.std.specs.List.{flat_map, list_any};
ghost use Rattle.st_core.specs.Pid.{IsRising};
ghost use Rattle.st_text.specs.Room.{line_room, HasRoom};
ghost use Rattle.st_text.specs.Writing.{WritesText};
ghost use Rattle.st_order.specs.Labels.{item_has_label};
ghost use Rattle.st_chart.specs.Answer.{WritesChart};
ghost use Rattle.st_chart.specs.Chart.{lane_line, lane_lines, mark, item_line};
ghost use Rattle.st_chart.specs.Chart.{label_line, chart_text};
ghost use Rattle.st_chart.specs.Parts.{bars, HasNoEndBeforeLast};
ghost use Rattle.st_chart.specs.Page.{Draws};
ghost use Rattle.st_chart.specs.Sheet.{line_on, sheet_lines};

use crate::charted_item::{ChartedItem, is_any_charted};
use crate::fault::ChartFault;
use crate::lanes::{lanes_of, lanes_to_ends};
use crate::marks::{RUN, bars_of, mark_of, put_item};
use crate::page::{Page, put_on, turn};
use crate::sheet::Sheet;
use st_chain::Chains;
use st_core::{ByteSink, Label, Pid, Streams};
use st_order::Item;
use st_text::{Buffer, Device, put_bytes, put_number, put_pid};
use std::alloc::Global;

/// The most lanes for which writing marks one by one is faster than in runs.
const FEW: usize = 8;

/// Appends the line that names the label.
fn put_label_line(buffer: &mut Buffer, label: Label)
    requires { HasRoom line_room buffer.old }
    ensures { buffer.new.items ≡ buffer.old.items ++ label_line label }
{
    put_bytes(buffer, b"label ");
    put_number(buffer, u64::from(label.0));
    put_bytes(buffer, b"\n");
}

/// Appends the line of a lane.
fn put_lane_line(buffer: &mut Buffer, number: u64, pid: Pid)
    requires { HasRoom line_room buffer.old }
    ensures { buffer.new.items ≡ buffer.old.items ++ lane_line number pid }
{
    put_bytes(buffer, b"lane ");
    put_number(buffer, number);
    put_bytes(buffer, b" ");
    put_pid(buffer, pid);
    put_bytes(buffer, b"\n");
}

fn write_label<W: ByteSink>(writer: &mut W, page: &mut Page, label: Label) -> Result<(), Device>
    ensures { Draws W.ByteSink (label_line label) writer.old writer.new page.old page.new result }
{
    page.line.clear();
    put_label_line(&mut page.line, label);
    put_on(writer, &mut page.waits, page.line.as_slice())
}

fn write_lanes<W: ByteSink>(writer: &mut W, page: &mut Page, lanes: &[Pid]) -> Result<(), Device>
    ensures { Draws W.ByteSink (lane_lines 1 lanes.now)
        writer.old writer.new page.old page.new result }
{
    for (i, pid) in lanes.iter().enumerate() {
        page.line.clear();
        put_lane_line(&mut page.line, i as u64 + 1, *pid);
        put_on(writer, &mut page.waits, page.line.as_slice())?;
    }
    Ok(())
}

fn write_each_mark<W: ByteSink>(
    writer: &mut W,
    page: &mut Page,
    lanes: &[Pid],
    charted: &ChartedItem,
) -> Result<(), Device>
    ensures { Draws W.ByteSink (flat_map (mark charted.now) lanes.now)
        writer.old writer.new page.old page.new result }
{
    for lane in lanes {
        put_on(writer, &mut page.waits, mark_of(charted, *lane))?;
    }
    Ok(())
}

/// Writes `count` bars, a run at a time.
fn write_bars<W: ByteSink>(writer: &mut W, page: &mut Page, count: usize) -> Result<(), Device>
    ensures { Draws W.ByteSink (bars count) writer.old writer.new page.old page.new result }
{
    let mut left = count;
    while left > 0 {
        let run = left.min(RUN);
        put_on(writer, &mut page.waits, bars_of(run))?;
        left -= run;
    }
    Ok(())
}

/// Writes an item's marks in lanes of which only the last may be an end: the others get bars.
fn write_run<W: ByteSink>(
    writer: &mut W,
    page: &mut Page,
    lanes: &[Pid],
    charted: &ChartedItem,
) -> Result<(), Device>
    requires { HasNoEndBeforeLast charted.now.event lanes.now }
    ensures { Draws W.ByteSink (flat_map (mark charted.now) lanes.now)
        writer.old writer.new page.old page.new result }
{
    let Some((last, others)) = lanes.split_last() else {
        return Ok(());
    };
    write_bars(writer, page, others.len())?;
    put_on(writer, &mut page.waits, mark_of(charted, *last))
}

/// Writes an item's marks in many lanes, in three runs: the lanes are cut after those of its ends.
fn write_runs<W: ByteSink>(
    writer: &mut W,
    page: &mut Page,
    lanes: &[Pid],
    charted: &ChartedItem,
) -> Result<(), Device>
    requires { IsRising lanes.now }
    ensures { Draws W.ByteSink (flat_map (mark charted.now) lanes.now)
        writer.old writer.new page.old page.new result }
{
    let (first, second) = lanes_to_ends(lanes, &charted.event);
    let (front, back) = lanes.split_at(second);
    let (left, middle) = front.split_at(first);
    write_run(writer, page, left, charted)?;
    write_run(writer, page, middle, charted)?;
    write_run(writer, page, back, charted)
}

fn write_marks<W: ByteSink>(
    writer: &mut W,
    page: &mut Page,
    lanes: &[Pid],
    charted: &ChartedItem,
) -> Result<(), Device>
    requires { IsRising lanes.now }
    ensures { Draws W.ByteSink (flat_map (mark charted.now) lanes.now)
        writer.old writer.new page.old page.new result }
{
    if lanes.len() <= FEW {
        write_each_mark(writer, page, lanes, charted)
    } else {
        write_runs(writer, page, lanes, charted)
    }
}

fn write_item<W: ByteSink>(
    writer: &mut W,
    page: &mut Page,
    sheet: &Sheet<'_>,
    charted: &ChartedItem,
) -> Result<(), Device>
    requires { IsRising sheet.now.lanes.now }
    ensures { Draws W.ByteSink (item_line sheet.now.chains.now sheet.now.lanes.now charted.now)
        writer.old writer.new page.old page.new result }
{
    write_marks(writer, page, sheet.lanes, charted)?;
    page.line.clear();
    put_item(&mut page.line, sheet.chains, charted);
    put_on(writer, &mut page.waits, page.line.as_slice())
}

fn write_if_charted<W: ByteSink>(
    writer: &mut W,
    page: &mut Page,
    sheet: &Sheet<'_>,
    item: Item,
) -> Result<(), Device>
    requires { IsRising sheet.now.lanes.now }
    ensures { Draws W.ByteSink (line_on sheet.now item)
        writer.old writer.new page.old page.new result }
{
    match ChartedItem::of(sheet.streams, sheet.label, item) {
        None => Ok(()),
        Some(charted) => write_item(writer, page, sheet, &charted),
    }
}

fn write_items<W: ByteSink>(
    writer: &mut W,
    page: &mut Page,
    sheet: &Sheet<'_>,
    items: &[Item],
) -> Result<(), Device>
    requires { IsRising sheet.now.lanes.now }
    ensures { Draws W.ByteSink (flat_map (line_on sheet.now) items.now)
        writer.old writer.new page.old page.new result }
{
    for item in items {
        write_if_charted(writer, page, sheet, *item)?;
    }
    Ok(())
}

fn write_chart<W: ByteSink>(
    writer: &mut W,
    page: &mut Page,
    sheet: &Sheet<'_>,
    items: &[Item],
) -> Result<(), Device>
    requires { IsRising sheet.now.lanes.now }
    ensures { Draws W.ByteSink (sheet_lines sheet.now items.now)
        writer.old writer.new page.old page.new result }
{
    write_label(writer, page, sheet.label)?;
    write_lanes(writer, page, sheet.lanes)?;
    write_items(writer, page, sheet, items)
}

/// Writes the whole chart, and sends what still waits on the page.
fn send_chart<W: ByteSink>(
    alloc: Global,
    writer: &mut W,
    sheet: &Sheet<'_>,
    items: &[Item],
) -> Result<(), Device>
    requires { IsRising sheet.now.lanes.now }
    ensures { WritesText W.puts W.failed (sheet_lines sheet.now items.now)
        writer.old writer.new result }
{
    let mut page = Page::new(alloc);
    write_chart(writer, &mut page, sheet, items)?;
    turn(writer, &mut page.waits)
}

/// Writes the chart of the items that have the label, in their order: a line for each lane, and
/// one for each item. An item without an event at its place is left out. `chains` has to be that
/// of `streams`. The lanes take memory, without which the chart fails with `Memory`; up to 128 kB
/// for bytes that wait for the writer only make it faster.
pub fn chart<W: ByteSink>(
    alloc: Global,
    writer: &mut W,
    streams: &Streams,
    chains: &Chains,
    items: &[Item],
    label: Label,
) -> Result<(), ChartFault>
    requires { chains.now ≡ streams.now }
    ensures written { WritesChart W.puts W.failed (chart_text streams.now items.now label)
        writer.old writer.new result }
    ensures no_label { result ≡ Err ChartFault.NoLabel
        ↔ list_any (item_has_label streams.now label) items.now ≡ false }
{
    if !is_any_charted(streams, label, items) {
        return Err(ChartFault::NoLabel);
    }
    let Ok(lanes) = lanes_of(alloc, streams, label, items) else {
        return Err(ChartFault::Memory);
    };
    let sheet = Sheet {
        streams,
        chains,
        lanes: &lanes,
        label,
    };
    match send_chart(alloc, writer, &sheet, items) {
        Ok(()) => Ok(()),
        Err(Device) => Err(ChartFault::Device),
    }
}
