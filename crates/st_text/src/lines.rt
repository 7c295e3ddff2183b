//! Writes lines of any kind to a sink: the words and the newline of each go into a buffer first.
//! Writing takes no memory.

ghost use Rattle.std.specs.Prelude.{◌≡◌, ◌+◌, ◌<◌, ◌++◌, ℕ, List};
ghost use Rattle.std.specs.List.{flat_map};
ghost use Rattle.arrayvec.specs.ArrayVec.{array_vec_len};
ghost use Rattle.st_text.specs.Room.{line_room, HasRoom};
ghost use Rattle.st_text.specs.Spelling as spelled;
ghost use Rattle.st_text.specs.Spelling.{ended_line};
ghost use Rattle.st_text.specs.Writing.{WritesOn, WritesText};

use crate::line::Line;
use crate::sink::{Device, flush, make_room};
use crate::spell::{Buffer, put_act, put_bytes, put_event, put_pid};
use st_core::{Act, ByteSink, Event};

/// A value that is written as one line.
pub trait TextLine: Copy {
    // The line without its newline.
    ghost words: { Self → List ℕ };

    /// Appends the words, and leaves room for the newline.
    fn put_words(self, buffer: &mut Buffer)
        requires { HasRoom line_room buffer.old }
        ensures items { buffer.new.items ≡ buffer.old.items ++ words self }
        ensures len { array_vec_len buffer.new < array_vec_len buffer.old + line_room };
}

impl TextLine for Line {
    ghost words = { spelled.line };

    #[inline(always)]
    fn put_words(self, buffer: &mut Buffer) {
        match self {
            Line::Header(false) => put_bytes(buffer, b"seqtrace 1"),
            Line::Header(true) => put_bytes(buffer, b"seqtrace 2"),
            Line::Process(pid) => {
                put_bytes(buffer, b"process ");
                put_pid(buffer, pid);
            }
            Line::Event(event) => put_event(buffer, &event),
            Line::Acts => put_bytes(buffer, b"acts"),
            Line::Act(act) => put_act(buffer, &act),
        }
    }
}

impl TextLine for Event {
    ghost words = { spelled.event };

    #[inline(always)]
    fn put_words(self, buffer: &mut Buffer) {
        put_event(buffer, &self);
    }
}

impl TextLine for Act {
    ghost words = { spelled.act };

    #[inline(always)]
    fn put_words(self, buffer: &mut Buffer) {
        put_act(buffer, &self);
    }
}

/// Writes a line and its newline into the buffer; if a whole piece waits there, writes that piece
/// to the sink first. Always inlined, so that the line isn't copied.
#[inline(always)]
pub fn write_line<S: ByteSink, L: TextLine>(
    sink: &mut S,
    buffer: &mut Buffer,
    line: L,
) -> Result<(), Device>
    ensures { WritesOn S.puts S.failed (ended_line (L.words line))
        sink.old sink.new buffer.old.items buffer.new.items result }
{
    make_room(sink, buffer)?;
    line.put_words(buffer);
    put_bytes(buffer, b"\n");
    Ok(())
}

pub(crate) fn write_each<S: ByteSink, L: TextLine>(
    sink: &mut S,
    buffer: &mut Buffer,
    lines: &[L],
) -> Result<(), Device>
    ensures { WritesOn S.puts S.failed (flat_map (λ line. ended_line (L.words line)) lines.now)
        sink.old sink.new buffer.old.items buffer.new.items result }
{
    for line in lines {
        write_line(sink, buffer, *line)?;
    }
    Ok(())
}

/// Writes one line to the sink. Not inlined, so that its buffer isn't on the stack of its callers.
#[inline(never)]
pub fn send_line<S: ByteSink, L: TextLine>(sink: &mut S, line: L) -> Result<(), Device>
    ensures { WritesText S.puts S.failed (ended_line (L.words line)) sink.old sink.new result }
{
    let mut buffer = Buffer::new();
    write_line(sink, &mut buffer, line)?;
    flush(sink, &mut buffer)
}
