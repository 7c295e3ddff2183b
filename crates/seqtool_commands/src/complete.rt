//! The command `complete`: writes what the input's streams lack, or why no run without a reset has
//! them, whatever processes report nothing. It ignores the acts in the input.

ghost use Rattle.std.specs.Prelude.{◌≡◌, ◌<◌, ◌↔◌, IsTrue, length};
ghost use Rattle.st_core.specs.Run.{pids_of};
ghost use Rattle.st_text.specs.Limits.{greater};
ghost use Rattle.st_plan.specs.Marks.{all_streams};
ghost use Rattle.st_commands.specs.Command.{Tells, call};
ghost use Rattle.st_commands.specs.Meaning.{Performs, Says};
ghost use Rattle.lack_decide.specs.Answers.{IsAnswer, IsWhole};
ghost use Rattle.lack_laws.specs.Silent.{with_silent};
ghost use Rattle.seqtool_commands.specs.Complete.{HasFewProcesses, IsOutputOfComplete};
ghost use Rattle.seqtool_commands.specs.Complete.{MeansCompleted, MeansLong, MeansNever};
ghost use Rattle.seqtool_commands.specs.Parts.{CompletesTo};

use crate::answer::tell_streams;
use crate::completion_lines::{send_added, send_never};
use crate::lines::OutputLine;
use lack_decide::{
    Answer, CertificateFault, CompleteFault, Completion, certificate, complete, with_silent,
};
use st_commands::{TOP, status_of, tell_bundle, tell_fault, tell_line};
use st_core::{ByteSink, ByteSource, Streams};
use st_text::{Limits, ReadFault, read_within};
use std::alloc::Global;
use std::thread::Threads;

/// The most acts and processes that the reader takes within the greater limits.
const MOST_ACTS: u64 = Limits::GREATER.acts as u64;

const MOST_PROCESSES: usize = Limits::GREATER.processes as usize;

/// How a completion is written.
#[derive(Clone, Copy, Debug, PartialEq, Eq)]
pub enum Form {
    /// A bundle of the streams that were read, with acts that show them.
    Acts,
    /// A bundle of the completed streams.
    Streams,
    /// The events that were added, a line each.
    Added,
}

/// Writes the streams with their unlisted processes, which are these, and acts that show them.
fn tell_shown<H: Threads + Sync, W: ByteSink>(
    rt: &H,
    alloc: Global,
    streams: &Streams,
    more: &Streams,
    completion: &Completion,
    writer: &mut W,
) -> u8
    requires whole { IsWhole TOP streams.now completion.now }
    requires few { HasFewProcesses completion.now }
    requires more { more.now ≡ with_silent streams.now completion.now.unlisted }
    ensures { Tells (call W.ByteSink writer.old writer.new)
        (CompletesTo Form.Acts streams.now) result }
{
    let _streams = streams;
    match certificate::<TOP>(rt, alloc, more, completion, MOST_ACTS) {
        Ok(found) => tell_bundle(writer, more, found.acts.as_slice()),
        Err(CertificateFault::TooManyActs) => tell_line(writer, OutputLine::Long, 5),
        Err(CertificateFault::Uncertified) => tell_line(writer, OutputLine::Uncertified, 4),
        Err(CertificateFault::Memory) => tell_fault(writer, ReadFault::Memory),
    }
}

/// Writes streams with acts that show them, built from their completion.
fn tell_acts<H: Threads + Sync, W: ByteSink>(
    rt: &H,
    alloc: Global,
    streams: &Streams,
    completion: &Completion,
    writer: &mut W,
) -> u8
    requires whole { IsWhole TOP streams.now completion.now }
    requires few { HasFewProcesses completion.now }
    ensures { Tells (call W.ByteSink writer.old writer.new)
        (CompletesTo Form.Acts streams.now) result }
{
    let unlisted = completion.unlisted();
    if unlisted.len() == 0 {
        return tell_shown(rt, alloc, streams, streams, completion, writer);
    }
    match with_silent(alloc, streams, unlisted) {
        Ok(more) => tell_shown(rt, alloc, streams, &more, completion, writer),
        Err(_) => tell_fault(writer, ReadFault::Memory),
    }
}

fn is_long(completion: &Completion) -> bool
    ensures { IsTrue result
        ↔ (MOST_PROCESSES < length (pids_of (all_streams completion.now.wholes))) }
{
    completion.streams().pids().len() > MOST_PROCESSES
}

fn tell_completion<H: Threads + Sync, W: ByteSink>(
    rt: &H,
    alloc: Global,
    streams: &Streams,
    completion: &Completion,
    form: Form,
    writer: &mut W,
) -> u8
    requires { IsWhole TOP streams.now completion.now }
    ensures { Tells (call W.ByteSink writer.old writer.new) (CompletesTo form streams.now) result }
{
    if form != Form::Added && is_long(completion) {
        return tell_line(writer, OutputLine::Long, 5);
    }
    match form {
        Form::Acts => tell_acts(rt, alloc, streams, completion, writer),
        Form::Streams => {
            let whole = completion.streams();
            tell_streams(writer, whole)
        }
        Form::Added => {
            let sent = send_added(writer, completion);
            status_of(sent, 0)
        }
    }
}

fn tell_answer<H: Threads + Sync, W: ByteSink>(
    rt: &H,
    alloc: Global,
    streams: &Streams,
    answer: &Answer,
    form: Form,
    writer: &mut W,
) -> u8
    requires { IsAnswer TOP streams.now answer.now }
    ensures { Tells (call W.ByteSink writer.old writer.new) (CompletesTo form streams.now) result }
{
    match answer {
        Answer::Whole(completion) => tell_completion(rt, alloc, streams, completion, form, writer),
        Answer::Never(pid, index, never) => {
            let sent = send_never(writer, streams, *pid, *index, *never);
            status_of(sent, 1)
        }
    }
}

/// Writes what streams lack.
fn complete_streams<H: Threads + Sync, W: ByteSink>(
    rt: &H,
    alloc: Global,
    streams: &Streams,
    form: Form,
    writer: &mut W,
) -> u8
    ensures { Tells (call W.ByteSink writer.old writer.new) (CompletesTo form streams.now) result }
{
    match complete::<TOP>(alloc, streams) {
        Ok(answer) => tell_answer(rt, alloc, streams, &answer, form, writer),
        Err(CompleteFault::Memory) => tell_fault(writer, ReadFault::Memory),
        Err(CompleteFault::Uncompleted) => tell_line(writer, OutputLine::Uncompleted, 4),
    }
}

/// Reads a bundle and writes what its streams lack, in the form, with status 0. If no run without
/// a reset has them, whatever processes report nothing, it writes an event and the reason, with
/// status 1. If a bundle is asked for, it writes `long` with status 5 if the processes are more
/// than the reader takes, or if the acts that were tried don't serve, and the number of acts that
/// surely suffices (six for each event, one for each count that a process passes unreported, and
/// one for each process) is more than it takes; fewer acts may suffice. Returns 2 for faulty
/// input, and 4 if memory runs out, the reader or the writer fails, the judge doesn't accept a
/// completion, or the checker doesn't accept the acts; no test has seen the last two. It sorts on
/// several threads.
pub fn run_complete<H: Threads + Sync, R: ByteSource, W: ByteSink>(
    rt: &H,
    alloc: Global,
    reader: &mut R,
    writer: &mut W,
    form: Form,
) -> u8
    ensures performed { Performs greater (call R.ByteSource reader.old reader.new)
        (call W.ByteSink writer.old writer.new)
        (IsOutputOfComplete form) (MeansCompleted form) MeansNever result }

    // The meaning of a completion that is too long, in the machine's own words.
    ensures long { result ≡ 5 → Says greater (call R.ByteSource reader.old reader.new)
        (call W.ByteSink writer.old writer.new) (MeansLong form) }
{
    match read_within(alloc, reader, Limits::GREATER) {
        Ok(bundle) => complete_streams(rt, alloc, &bundle.streams, form, writer),
        Err(fault) => tell_fault(writer, fault),
    }
}
