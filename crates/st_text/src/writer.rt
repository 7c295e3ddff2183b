//! Writes a bundle: its one text, to any sink, through a buffer on the stack. Writing takes no
//! memory.

ghost use Rattle.std.specs.Prelude.{Some};
ghost use Rattle.std.specs.List.{flat_map};
ghost use Rattle.st_core.specs.Streams.{events_of};
ghost use Rattle.st_text.specs.Spelling as spelled;
ghost use Rattle.st_text.specs.Text.{ended, process_lines, act_lines, body, parts, spelling};
ghost use Rattle.st_text.specs.Contents.{contents};
ghost use Rattle.st_text.specs.Writing.{WritesOn, WritesText};

use crate::bundle::Bundle;
use crate::line::Line;
use crate::lines::{write_each, write_line};
use crate::remote::are_parts_remote;
use crate::sink::{Device, flush};
use crate::spell::{Buffer, put_act, put_event, put_pid};
use st_core::{Act, ByteSink, Event, Pid, Streams};

fn write_process<S: ByteSink>(
    sink: &mut S,
    buffer: &mut Buffer,
    streams: &Streams,
    pid: Pid,
) -> Result<(), Device>
    ensures { WritesOn S.puts S.failed
        (flat_map ended (process_lines (record { pid = pid; events = events_of streams.now pid })))
        sink.old sink.new buffer.old.items buffer.new.items result }
{
    write_line(sink, buffer, Line::Process(pid))?;
    write_each(sink, buffer, streams.events(pid))
}

fn write_streams<S: ByteSink>(
    sink: &mut S,
    buffer: &mut Buffer,
    streams: &Streams,
) -> Result<(), Device>
    ensures { WritesOn S.puts S.failed (flat_map ended (flat_map process_lines streams.now))
        sink.old sink.new buffer.old.items buffer.new.items result }
{
    for pid in streams.pids() {
        write_process(sink, buffer, streams, *pid)?;
    }
    Ok(())
}

/// Writes the word `acts` and the acts into the buffer, a line each.
pub fn write_acts<S: ByteSink>(
    sink: &mut S,
    buffer: &mut Buffer,
    acts: &[Act],
) -> Result<(), Device>
    ensures { WritesOn S.puts S.failed (flat_map ended (act_lines (Some acts.now)))
        sink.old sink.new buffer.old.items buffer.new.items result }
{
    write_line(sink, buffer, Line::Acts)?;
    write_each(sink, buffer, acts)
}

fn write_body<S: ByteSink>(
    sink: &mut S,
    buffer: &mut Buffer,
    streams: &Streams,
    acts: Option<&[Act]>,
) -> Result<(), Device>
    ensures { WritesOn S.puts S.failed (flat_map ended (body (parts streams.now acts.entry)))
        sink.old sink.new buffer.old.items buffer.new.items result }
{
    write_streams(sink, buffer, streams)?;
    match acts {
        None => Ok(()),
        Some(acts) => write_acts(sink, buffer, acts),
    }
}

fn write_lines<S: ByteSink>(
    sink: &mut S,
    buffer: &mut Buffer,
    streams: &Streams,
    acts: Option<&[Act]>,
) -> Result<(), Device>
    ensures { WritesOn S.puts S.failed (spelling (parts streams.now acts.entry))
        sink.old sink.new buffer.old.items buffer.new.items result }
{
    write_line(sink, buffer, Line::Header(are_parts_remote(streams, acts)))?;
    write_body(sink, buffer, streams, acts)
}

/// Writes the text of a bundle with these parts: header, streams, and the acts if there are any.
/// Takes no memory.
pub fn write_parts<S: ByteSink>(
    sink: &mut S,
    streams: &Streams,
    acts: Option<&[Act]>,
) -> Result<(), Device>
    ensures { WritesText S.puts S.failed
        (spelling (parts streams.now acts.entry)) sink.old sink.new result }
{
    let mut buffer = Buffer::new();
    write_lines(sink, &mut buffer, streams, acts)?;
    flush(sink, &mut buffer)
}

/// Writes the text of a bundle. Takes no memory.
pub fn write<S: ByteSink>(sink: &mut S, bundle: &Bundle) -> Result<(), Device>
    ensures { WritesText S.puts S.failed (spelling (contents bundle.now)) sink.old sink.new result }
{
    match &bundle.acts {
        None => write_parts(sink, &bundle.streams, None),
        Some(acts) => write_parts(sink, &bundle.streams, Some(acts.as_slice())),
    }
}

/// Writes a pid, as `<0.30.0>`. Takes no memory.
pub fn write_pid<S: ByteSink>(sink: &mut S, pid: Pid) -> Result<(), Device>
    ensures { WritesText S.puts S.failed (spelled.pid pid) sink.old sink.new result }
{
    let mut buffer = Buffer::new();
    put_pid(&mut buffer, pid);
    flush(sink, &mut buffer)
}

/// Writes an event, without a newline. Takes no memory.
pub fn write_event<S: ByteSink>(sink: &mut S, event: &Event) -> Result<(), Device>
    ensures { WritesText S.puts S.failed (spelled.event event.now) sink.old sink.new result }
{
    let mut buffer = Buffer::new();
    put_event(&mut buffer, event);
    flush(sink, &mut buffer)
}

/// Writes an act, without a newline. Takes no memory.
pub fn write_act<S: ByteSink>(sink: &mut S, act: &Act) -> Result<(), Device>
    ensures { WritesText S.puts S.failed (spelled.act act.now) sink.old sink.new result }
{
    let mut buffer = Buffer::new();
    put_act(&mut buffer, act);
    flush(sink, &mut buffer)
}
