//! Runs a command on a reader and a writer.

ghost use Rattle.st_commands.specs.Command.{Delivers, call};
ghost use Rattle.seqtool_commands.specs.Command.{Does, tool_usage, tool_version};

use crate::check_node::run_check_node;
use crate::complete::run_complete;
use crate::lines::OutputLine;
use crate::renumber::run_renumber;
use crate::why::run_why;
use crate::words::ToolTask;
use st_commands::{run_audit_within, run_check_within, tell_line};
use st_core::{ByteSink, ByteSource};
use st_text::Limits;
use std::thread::Threads;

/// Does a task within the greater limits, and returns the exit status.
pub fn run<H: AllocGlobal + Threads + Sync, R: ByteSource, W: ByteSink>(
    rt: &H,
    task: ToolTask,
    reader: &mut R,
    writer: &mut W,
) -> u8
    ensures { Does (call R.ByteSource reader.old reader.new)
        (call W.ByteSink writer.old writer.new) task result }
{
    match task {
        ToolTask::Check => run_check_within(rt.alloc(), reader, writer, Limits::GREATER),
        ToolTask::CheckNode => run_check_node(rt.alloc(), reader, writer),
        ToolTask::Audit => run_audit_within(rt, rt.alloc(), reader, writer, Limits::GREATER),
        ToolTask::Complete(form) => run_complete(rt, rt.alloc(), reader, writer, form),
        ToolTask::Renumber => run_renumber(rt.alloc(), reader, writer),
        ToolTask::Why(question) => run_why(rt.alloc(), reader, writer, question),
    }
}

/// Writes the usage of the program, with status 3.
pub fn tell_usage<W: ByteSink>(writer: &mut W) -> u8
    ensures { Delivers (call W.ByteSink writer.old writer.new) tool_usage result }
{
    tell_line(writer, OutputLine::Usage, 3)
}

/// Writes the version, with status 0.
pub fn tell_version<W: ByteSink>(writer: &mut W) -> u8
    ensures { Delivers (call W.ByteSink writer.old writer.new) tool_version result }
{
    tell_line(writer, OutputLine::Version, 0)
}
