//! The lines that the program writes, through a buffer on the stack. Which line is written is
//! decided elsewhere; writing takes no memory.

ghost use Rattle.std.specs.Prelude.{◌+◌, ◌++◌, codes};
ghost use Rattle.std.specs.List.{flat_map};
ghost use Rattle.st_check.specs.Answers.{verdict_of};
ghost use Rattle.st_text.specs.Room.{HasRoom, Puts};
ghost use Rattle.st_text.specs.Spelling.{ended_line};
ghost use Rattle.st_text.specs.Writing.{WritesOn, WritesText};
ghost use Rattle.st_commands.specs.Lines.{output_words, output_room};
ghost use Rattle.st_commands.specs.Output.{fault_words, pair_words, pair_line, verdict_text};
ghost use Rattle.st_commands.specs.Recorded.{act_fault_words};

use st_check::Verdict;
use st_core::{ByteSink, Label, Pid};
use st_text::{
    Buffer, Device, ReadFault, TextLine, flush, put_bytes, put_numbered, put_pid, write_line,
};

/// A line of the program's own.
#[derive(Clone, Copy, Debug)]
pub(crate) enum OutputLine {
    /// The acts show the streams.
    Yes,
    /// A reported receive and its send, by the numbers of their acts.
    Pair(u64, u64),
    /// The act without a step.
    Stuck(u64),
    /// The act that reports something else.
    Differs(u64),
    /// The process with events left.
    Left(Pid),
    /// No item has this label.
    NoLabel(Label),
    /// Why the input is no text, or there is no result.
    Fault(ReadFault),
    /// The input has no acts.
    NoActs,
    /// The act of this process's script that was refused, by its number there.
    ActFault(Pid, u64),
    /// A thread couldn't be started.
    ThreadFault,
    /// The pieces that the threads left aren't one run.
    JoinFault,
    /// How the program is called.
    Usage,
}

/// Appends the words of a pair: the numbers of the receive's act and of its send's act.
fn put_pair(buffer: &mut Buffer, receive: u64, send: u64)
    requires { HasRoom output_room buffer.old }
    ensures { Puts output_room (pair_words (receive, send)) buffer.old buffer.new }
{
    put_numbered(buffer, b"pair ", receive);
    put_numbered(buffer, b" ", send);
}

fn put_fault(buffer: &mut Buffer, fault: ReadFault)
    requires { HasRoom output_room buffer.old }
    ensures { Puts output_room (fault_words fault) buffer.old buffer.new }
{
    match fault {
        ReadFault::Memory => put_bytes(buffer, b"fault memory"),
        ReadFault::Device => put_bytes(buffer, b"fault device"),
        ReadFault::TooLarge => put_bytes(buffer, b"fault too large"),
        ReadFault::Line(n) => put_numbered(buffer, b"fault line ", n),
        ReadFault::Order(n) => put_numbered(buffer, b"fault order ", n),
        ReadFault::Foreign(n) => put_numbered(buffer, b"fault foreign ", n),
        ReadFault::Unknown(n) => put_numbered(buffer, b"fault unknown ", n),
        ReadFault::TooMany(n) => put_numbered(buffer, b"fault too many ", n),
        ReadFault::Truncated => put_bytes(buffer, b"fault truncated"),
    }
}

fn put_act_fault(buffer: &mut Buffer, pid: Pid, n: u64)
    requires { HasRoom output_room buffer.old }
    ensures { Puts output_room (act_fault_words pid n) buffer.old buffer.new }
{
    put_bytes(buffer, b"fault act ");
    put_pid(buffer, pid);
    put_numbered(buffer, b" ", n);
}

impl TextLine for OutputLine {
    ghost words = { output_words };

    fn put_words(self, buffer: &mut Buffer) {
        match self {
            OutputLine::Yes => put_bytes(buffer, b"yes"),
            OutputLine::Pair(receive, send) => put_pair(buffer, receive, send),
            OutputLine::Stuck(n) => put_numbered(buffer, b"no stuck ", n),
            OutputLine::Differs(n) => put_numbered(buffer, b"no differs ", n),
            OutputLine::Left(pid) => {
                put_bytes(buffer, b"no left ");
                put_pid(buffer, pid);
            }
            OutputLine::NoLabel(label) => put_numbered(buffer, b"no label ", u64::from(label.0)),
            OutputLine::Fault(fault) => put_fault(buffer, fault),
            OutputLine::NoActs => put_bytes(buffer, b"fault no acts"),
            OutputLine::ActFault(pid, n) => put_act_fault(buffer, pid, n),
            OutputLine::ThreadFault => put_bytes(buffer, b"fault thread"),
            OutputLine::JoinFault => put_bytes(buffer, b"fault join"),
            OutputLine::Usage => put_bytes(
                buffer,
                b"usage: seqaudit check|audit|replay|drive|chart --label N",
            ),
        }
    }
}

fn write_pairs<W: ByteSink>(
    writer: &mut W,
    buffer: &mut Buffer,
    pairs: &[(u64, u64)],
) -> Result<(), Device>
    ensures { WritesOn W.puts W.failed (flat_map pair_line pairs.now)
        writer.old writer.new buffer.old.items buffer.new.items result }
{
    for pair in pairs {
        write_line(writer, buffer, OutputLine::Pair(pair.0, pair.1))?;
    }
    Ok(())
}

fn write_yes<W: ByteSink>(
    writer: &mut W,
    buffer: &mut Buffer,
    pairs: &[(u64, u64)],
) -> Result<(), Device>
    ensures { WritesOn W.puts W.failed (ended_line (codes "yes") ++ flat_map pair_line pairs.now)
        writer.old writer.new buffer.old.items buffer.new.items result }
{
    write_line(writer, buffer, OutputLine::Yes)?;
    write_pairs(writer, buffer, pairs)
}

fn write_verdict<W: ByteSink>(
    writer: &mut W,
    buffer: &mut Buffer,
    verdict: &Verdict,
) -> Result<(), Device>
    ensures { WritesOn W.puts W.failed (verdict_text (verdict_of verdict.now))
        writer.old writer.new buffer.old.items buffer.new.items result }
{
    match verdict {
        Verdict::Stuck(n) => write_line(writer, buffer, OutputLine::Stuck(*n)),
        Verdict::Differs(n) => write_line(writer, buffer, OutputLine::Differs(*n)),
        Verdict::Left(pid) => write_line(writer, buffer, OutputLine::Left(*pid)),
        Verdict::Yes(pairs) => write_yes(writer, buffer, pairs.as_slice()),
    }
}

/// Writes a verdict to the writer. Not inlined, so that its buffer isn't on the stack of its
/// callers.
#[inline(never)]
pub(crate) fn send_verdict<W: ByteSink>(writer: &mut W, verdict: &Verdict) -> Result<(), Device>
    ensures { WritesText W.puts W.failed
        (verdict_text (verdict_of verdict.now)) writer.old writer.new result }
{
    let mut buffer = Buffer::new();
    write_verdict(writer, &mut buffer, verdict)?;
    flush(writer, &mut buffer)
}
