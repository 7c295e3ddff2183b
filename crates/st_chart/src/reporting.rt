//! The report of what the auditor found.

ghost use Rattle.std.specs.Prelude.{◌≡◌, ◌≤◌, ◌++◌, length, codes};
ghost use Rattle.st_text.specs.Room.{line_room, HasRoom, Puts};
ghost use Rattle.st_text.specs.Spelling.{ended_line};
ghost use Rattle.st_text.specs.Writing.{WritesOn, WritesText};
ghost use Rattle.st_chart.specs.Words.{place_words};
ghost use Rattle.st_chart.specs.Room.{verdict_room, reason_room};
ghost use Rattle.st_chart.specs.Report.{verdict_words, reason_words, unfit_line, event_words};
ghost use Rattle.st_chart.specs.Report.{place_line, event_line, evidence, unfit_text};
ghost use Rattle.st_chart.specs.Report.{report_text};

use crate::words::put_place_after;
use st_audit::{Finding, Reason};
use st_check::Verdict;
use st_core::{ByteSink, Event, Pid, Streams};
use st_text::{
    Buffer, Device, flush, make_room, put_bytes, put_event, put_numbered, put_pid, write_acts,
    write_parts,
};

/// Appends the verdict on the tried acts.
fn put_verdict(buffer: &mut Buffer, verdict: &Verdict)
    requires { HasRoom verdict_room buffer.old }
    ensures { Puts verdict_room (verdict_words verdict.now) buffer.old buffer.new }
{
    match verdict {
        Verdict::Stuck(n) => put_numbered(buffer, b"stuck ", *n),
        Verdict::Differs(n) => put_numbered(buffer, b"differs ", *n),
        Verdict::Left(pid) => {
            put_bytes(buffer, b"left ");
            put_pid(buffer, *pid);
        }
        Verdict::Yes(_) => put_bytes(buffer, b"yes"),
    }
}

fn put_reason(buffer: &mut Buffer, pid: Pid, reason: &Reason)
    requires { HasRoom reason_room buffer.old }
    ensures { Puts reason_room (reason_words pid reason.now) buffer.old buffer.new }
{
    match reason {
        Reason::PrevNotBefore => put_bytes(buffer, b"prevnotbefore"),
        Reason::NotRising(index) => put_place_after(buffer, b"notrising ", pid, *index),
        Reason::Repeated(other, index) => put_place_after(buffer, b"repeated ", *other, *index),
        Reason::Mismatch(other, index) => put_place_after(buffer, b"mismatch ", *other, *index),
        Reason::Uncaused => put_bytes(buffer, b"uncaused"),
        Reason::TooWide => put_bytes(buffer, b"toowide"),
        Reason::NotReplayed(_, verdict) => {
            put_bytes(buffer, b"notreplayed ");
            put_verdict(buffer, verdict);
        }
    }
}

fn put_unfit(buffer: &mut Buffer, pid: Pid, index: u64, reason: &Reason)
    requires { HasRoom line_room buffer.old }
    ensures { buffer.new.items ≡ buffer.old.items ++ unfit_line pid index reason.now }
{
    put_place_after(buffer, b"unfit ", pid, index);
    put_bytes(buffer, b" ");
    put_reason(buffer, pid, reason);
    put_bytes(buffer, b"\n");
}

/// Appends a word, a place and a space.
fn put_front(buffer: &mut Buffer, word: &[u8], pid: Pid, index: u64)
    requires room { HasRoom line_room buffer.old }
    requires short { length word.now ≤ 6 }
    ensures { buffer.new.items
        ≡ buffer.old.items ++ (word.now ++ place_words pid index ++ codes " ") }
{
    put_place_after(buffer, word, pid, index);
    put_bytes(buffer, b" ");
}

/// Appends an event and a newline.
fn put_back(buffer: &mut Buffer, event: Option<Event>)
    requires { HasRoom line_room buffer.old }
    ensures { buffer.new.items ≡ buffer.old.items ++ ended_line (event_words event) }
{
    if let Some(event) = event {
        put_event(buffer, &event);
    }
    put_bytes(buffer, b"\n");
}

fn write_unfit_line<W: ByteSink>(
    writer: &mut W,
    buffer: &mut Buffer,
    pid: Pid,
    index: u64,
    reason: &Reason,
) -> Result<(), Device>
    ensures { WritesOn W.puts W.failed (unfit_line pid index reason.now)
        writer.old writer.new buffer.old.items buffer.new.items result }
{
    make_room(writer, buffer)?;
    put_unfit(buffer, pid, index, reason);
    Ok(())
}

/// Writes a line of a word, a place and the event there. The line is made in two parts, since it
/// may take more room than the buffer has for a line.
pub fn write_place_line<W: ByteSink>(
    writer: &mut W,
    buffer: &mut Buffer,
    word: &[u8],
    pid: Pid,
    index: u64,
    event: Option<Event>,
) -> Result<(), Device>
    requires { length word.now ≤ 6 }
    ensures { WritesOn W.puts W.failed (place_line word.now pid index event)
        writer.old writer.new buffer.old.items buffer.new.items result }
{
    make_room(writer, buffer)?;
    put_front(buffer, word, pid, index);
    make_room(writer, buffer)?;
    put_back(buffer, event);
    Ok(())
}

/// Writes the line of the event at the place.
pub fn write_event<W: ByteSink>(
    writer: &mut W,
    buffer: &mut Buffer,
    streams: &Streams,
    pid: Pid,
    index: u64,
) -> Result<(), Device>
    ensures { WritesOn W.puts W.failed (event_line streams.now pid index)
        writer.old writer.new buffer.old.items buffer.new.items result }
{
    let event = streams.event(pid, index);
    write_place_line(writer, buffer, b"event ", pid, index, event)
}

/// Writes what a reason rests on: the event at the other place, or the tried acts.
fn write_evidence<W: ByteSink>(
    writer: &mut W,
    buffer: &mut Buffer,
    streams: &Streams,
    pid: Pid,
    reason: &Reason,
) -> Result<(), Device>
    ensures { WritesOn W.puts W.failed (evidence streams.now pid reason.now)
        writer.old writer.new buffer.old.items buffer.new.items result }
{
    match reason {
        Reason::PrevNotBefore | Reason::Uncaused | Reason::TooWide => Ok(()),
        Reason::NotRising(index) => write_event(writer, buffer, streams, pid, *index),
        Reason::Repeated(other, index) | Reason::Mismatch(other, index) => {
            write_event(writer, buffer, streams, *other, *index)
        }
        Reason::NotReplayed(acts, _) => write_acts(writer, buffer, acts.as_slice()),
    }
}

/// Writes the place and the reason, the event there, and what the reason rests on.
fn write_unfit<W: ByteSink>(
    writer: &mut W,
    buffer: &mut Buffer,
    streams: &Streams,
    pid: Pid,
    index: u64,
    reason: &Reason,
) -> Result<(), Device>
    ensures { WritesOn W.puts W.failed (unfit_text streams.now pid index reason.now)
        writer.old writer.new buffer.old.items buffer.new.items result }
{
    write_unfit_line(writer, buffer, pid, index, reason)?;
    write_event(writer, buffer, streams, pid, index)?;
    write_evidence(writer, buffer, streams, pid, reason)
}

/// Writes the text of an event that doesn't fit, and sends all of it.
fn send_unfit<W: ByteSink>(
    writer: &mut W,
    streams: &Streams,
    pid: Pid,
    index: u64,
    reason: &Reason,
) -> Result<(), Device>
    ensures { WritesText W.puts W.failed
        (unfit_text streams.now pid index reason.now) writer.old writer.new result }
{
    let mut buffer = Buffer::new();
    write_unfit(writer, &mut buffer, streams, pid, index, reason)?;
    flush(writer, &mut buffer)
}

/// Writes a finding: if the streams fit, the bundle with its acts; else the place and the reason,
/// the event there, and what the reason rests on. Takes no memory.
pub fn report<W: ByteSink>(
    writer: &mut W,
    streams: &Streams,
    finding: &Finding,
) -> Result<(), Device>
    ensures { WritesText W.puts W.failed
        (report_text streams.now finding.now) writer.old writer.new result }
{
    match finding {
        Finding::Fits(acts, _) => write_parts(writer, streams, Some(acts.as_slice())),
        Finding::Unfit(pid, index, reason) => send_unfit(writer, streams, *pid, *index, reason),
    }
}
