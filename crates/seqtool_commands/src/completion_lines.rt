//! Writes the lines of the command `complete`: the added events, or an event with the reason why
//! there is no completion.

ghost use Rattle.std.specs.Prelude.{◌<◌, length};
ghost use Rattle.std.specs.List.{flat_map};
ghost use Rattle.st_text.specs.Writing.{WritesOn, WritesText};
ghost use Rattle.seqtool_commands.specs.Complete.{added_text, never_text};
ghost use Rattle.seqtool_commands.specs.Lines.{added_line, added_of, added_parts, never_parts};
ghost use Rattle.seqtool_commands.specs.Lines.{other_line, unlisted_line};

use crate::lines::OutputLine;
use lack_decide::{Completion, Never, is_marked};
use st_chart::{write_event, write_place_line};
use st_core::{ByteSink, Event, Pid, Streams};
use st_text::{Buffer, Device, flush, write_line};

/// Writes the line of a process's event, if it was added.
fn write_if_added<W: ByteSink>(
    writer: &mut W,
    buffer: &mut Buffer,
    pid: Pid,
    events: &[Event],
    marks: &[bool],
    index: usize,
) -> Result<(), Device>
    requires { index < length events.now }
    ensures { WritesOn W.puts W.failed (added_line pid events.now marks.now index)
        writer.old writer.new buffer.old.items buffer.new.items result }
{
    if is_marked(marks, index) {
        return Ok(());
    }
    let event = Some(events[index]);
    write_place_line(writer, buffer, b"added ", pid, index as u64, event)
}

fn write_added_of<W: ByteSink>(
    writer: &mut W,
    buffer: &mut Buffer,
    completion: &Completion,
    pid: Pid,
) -> Result<(), Device>
    ensures { WritesOn W.puts W.failed (added_of completion.now.wholes pid)
        writer.old writer.new buffer.old.items buffer.new.items result }
{
    let events = completion.streams().events(pid);
    let marks = completion.marks_of(pid);
    for index in 0..events.len() {
        write_if_added(writer, buffer, pid, events, marks, index)?;
    }
    Ok(())
}

fn write_added_by<W: ByteSink>(
    writer: &mut W,
    buffer: &mut Buffer,
    completion: &Completion,
    pids: &[Pid],
) -> Result<(), Device>
    ensures { WritesOn W.puts W.failed (flat_map (added_of completion.now.wholes) pids.now)
        writer.old writer.new buffer.old.items buffer.new.items result }
{
    for pid in pids {
        write_added_of(writer, buffer, completion, *pid)?;
    }
    Ok(())
}

fn write_unlisted<W: ByteSink>(
    writer: &mut W,
    buffer: &mut Buffer,
    pids: &[Pid],
) -> Result<(), Device>
    ensures { WritesOn W.puts W.failed (flat_map unlisted_line pids.now)
        writer.old writer.new buffer.old.items buffer.new.items result }
{
    for pid in pids {
        write_line(writer, buffer, OutputLine::Unlisted(*pid))?;
    }
    Ok(())
}

/// Writes the number of added events, the unlisted processes, and a line for each added event.
fn write_added<W: ByteSink>(
    writer: &mut W,
    buffer: &mut Buffer,
    completion: &Completion,
) -> Result<(), Device>
    ensures { WritesOn W.puts W.failed (added_parts completion.now)
        writer.old writer.new buffer.old.items buffer.new.items result }
{
    write_line(writer, buffer, OutputLine::Added(completion.added()))?;
    write_unlisted(writer, buffer, completion.unlisted())?;
    write_added_by(writer, buffer, completion, completion.streams().pids())
}

/// Sends the number of added events, the unlisted processes, and a line for each added event.
pub fn send_added<W: ByteSink>(writer: &mut W, completion: &Completion) -> Result<(), Device>
    ensures { WritesText W.puts W.failed (added_text completion.now) writer.old writer.new result }
{
    let mut buffer = Buffer::new();
    write_added(writer, &mut buffer, completion)?;
    flush(writer, &mut buffer)
}

/// Writes the event at the other place that a reason names, if it names one.
fn write_other<W: ByteSink>(
    writer: &mut W,
    buffer: &mut Buffer,
    streams: &Streams,
    pid: Pid,
    never: Never,
) -> Result<(), Device>
    ensures { WritesOn W.puts W.failed (other_line streams.now pid never)
        writer.old writer.new buffer.old.items buffer.new.items result }
{
    match never {
        Never::PrevNotBefore => Ok(()),
        Never::NotRising(index) => write_event(writer, buffer, streams, pid, index),
        Never::Repeated(other, index) => write_event(writer, buffer, streams, other, index),
        Never::Mismatch(other, index) => write_event(writer, buffer, streams, other, index),
        Never::Late(index) => write_event(writer, buffer, streams, pid, index),
        Never::Unfounded => Ok(()),
        Never::TooHigh => Ok(()),
    }
}

/// Writes a reason against the event at a place, and the events that the reason names.
fn write_never<W: ByteSink>(
    writer: &mut W,
    buffer: &mut Buffer,
    streams: &Streams,
    pid: Pid,
    index: u64,
    never: Never,
) -> Result<(), Device>
    ensures { WritesOn W.puts W.failed (never_parts streams.now pid index never)
        writer.old writer.new buffer.old.items buffer.new.items result }
{
    write_line(writer, buffer, OutputLine::Never(pid, index, never))?;
    write_event(writer, buffer, streams, pid, index)?;
    write_other(writer, buffer, streams, pid, never)
}

/// Sends a reason against the event at a place, and the events that the reason names.
pub fn send_never<W: ByteSink>(
    writer: &mut W,
    streams: &Streams,
    pid: Pid,
    index: u64,
    never: Never,
) -> Result<(), Device>
    ensures { WritesText W.puts W.failed
        (never_text streams.now pid index never) writer.old writer.new result }
{
    let mut buffer = Buffer::new();
    write_never(writer, &mut buffer, streams, pid, index, never)?;
    flush(writer, &mut buffer)
}
