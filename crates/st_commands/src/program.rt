//! A run of the program: the command that its words ask for, on its reader and its writer.

ghost use Rattle.std.specs.Prelude.{◌≡◌, ◌<◌, Some, map};
ghost use Rattle.st_commands.specs.declared.words.Task.{Task};
ghost use Rattle.st_commands.specs.Command.{OwesFor, Tells, call};
ghost use Rattle.st_commands.specs.Meaning.{PerformsBy};
ghost use Rattle.st_commands.specs.Words.{task_asked};
ghost use Rattle.st_text.specs.Limits.{standard};

use crate::answer::tell_refusal;
use crate::audit::run_audit;
use crate::chart::run_chart;
use crate::check::run_check;
use crate::drive::run_drive;
use crate::replay::run_replay;
use crate::words::{Task, read_words};
use st_core::{ByteSink, ByteSource};
use std::convert::AsStr;
use std::sync::Wait;
use std::thread::Threads;

fn run_task<H: AllocGlobal + Threads + Wait + Sync, R: ByteSource, W: ByteSink>(
    rt: &H,
    task: Task,
    reader: &mut R,
    writer: &mut W,
) -> u8
    ensures { PerformsBy standard (call R.ByteSource reader.old reader.new)
        (call W.ByteSink writer.old writer.new) task result }
{
    match task {
        Task::Check => run_check(rt.alloc(), reader, writer),
        Task::Audit => run_audit(rt, rt.alloc(), reader, writer),
        Task::Replay => run_replay(rt.alloc(), reader, writer),
        Task::Chart(label) => run_chart(rt, rt.alloc(), reader, writer, label),
        Task::Drive => run_drive(rt, rt.alloc(), reader, writer),
    }
}

/// Does what the words ask for within the standard limits, and returns the exit status. The first
/// word is the program's name. If the words ask for no command, it writes the usage line, with
/// status 3. All texts go to the writer.
pub fn run<H: AllocGlobal + Threads + Wait + Sync, S: AsStr, R: ByteSource, W: ByteSink>(
    rt: &H,
    words: &[S],
    reader: &mut R,
    writer: &mut W,
) -> u8
    ensures told { Tells (call W.ByteSink writer.old writer.new)
        (OwesFor standard (call R.ByteSource reader.old reader.new) (map S.text words.now)) result }

    // The meaning of a yes and a no of the command that the words ask for.
    ensures means { (task : Task) → task_asked (map S.text words.now) ≡ Some task → result < 2 →
        PerformsBy standard (call R.ByteSource reader.old reader.new)
        (call W.ByteSink writer.old writer.new) task result }
{
    match read_words(rt.alloc(), words) {
        Ok(task) => run_task(rt, task, reader, writer),
        Err(refusal) => tell_refusal(writer, refusal),
    }
}
