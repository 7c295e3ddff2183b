//! The command `why`: writes what caused an event of the input's streams, or what it caused. It
//! ignores the acts in the input.

ghost use Rattle.std.specs.Prelude.{◌≡◌, IfOk, IsSome, false, true};
ghost use Rattle.node_streams.specs.Order.{HaveOrder};
ghost use Rattle.st_commands.specs.Command.{Owes, Tells, call};
ghost use Rattle.st_commands.specs.Meaning.{Says};
ghost use Rattle.st_text.specs.Limits.{greater};
ghost use Rattle.seqtool_commands.specs.WhyMeaning.{MeansTold, MeansUntold};
ghost use Rattle.seqtool_commands.specs.WhyParts.{AnswersOf};
ghost use Rattle.seqtool_commands.specs.Why.{IsWhy, event_asked};

use crate::lines::OutputLine;
use crate::question::Question;
use crate::trace::NumberedHops;
use crate::why_answer::{nodes_from, send_answer};
use node_hops::laws::hops_are_true;
use node_streams::judge;
use node_streams::laws::a_run_has_an_order;
use st_commands::{status_of, tell_fault, tell_line};
use st_core::{ByteSink, ByteSource, Streams};
use st_text::{Limits, ReadFault, read_within};
use std::alloc::{AllocError, Global};

/// Returns whether the events have an order in which each receive comes after its send. Fails only
/// if memory runs out.
fn has_order(alloc: Global, streams: &Streams) -> Result<bool, AllocError>
    ensures yes { IfOk result (λ b. b ≡ true → HaveOrder streams.now) }
    ensures no { IfOk result (λ b. b ≡ false → ¬ (HaveOrder streams.now)) }
{
    let judgement = judge(alloc, streams)?;
    Ok(judgement.cycle.is_empty())
}

/// Writes the answer about an event that is there.
fn tell_found<W: ByteSink>(
    alloc: Global,
    trace: &NumberedHops<'_>,
    question: Question,
    writer: &mut W,
) -> u8
    requires there { IsSome (event_asked trace.now question) }
    requires ordered { HaveOrder trace.now }
    ensures { Tells (call W.ByteSink writer.old writer.new)
        (AnswersOf trace.now question) result }
{
    match nodes_from(alloc, trace, question) {
        Ok(nodes) => {
            let sent = send_answer(writer, trace, question, nodes.as_slice());
            status_of(sent, 0)
        }
        Err(_) => tell_fault(writer, ReadFault::Memory),
    }
}

/// Finds the hops, and writes the answer about an event that is there.
fn answer_ordered<W: ByteSink>(
    alloc: Global,
    streams: &Streams,
    question: Question,
    writer: &mut W,
) -> u8
    requires there { IsSome (event_asked streams.now question) }
    requires ordered { HaveOrder streams.now }
    ensures { Tells (call W.ByteSink writer.old writer.new)
        (AnswersOf streams.now question) result }
{
    match NumberedHops::new(alloc, streams) {
        Ok(trace) => tell_found(alloc, &trace, question, writer),
        Err(_) => tell_fault(writer, ReadFault::Memory),
    }
}

/// Writes the answer about an event that is there, or that the events have no order.
fn answer_there<W: ByteSink>(
    alloc: Global,
    streams: &Streams,
    question: Question,
    writer: &mut W,
) -> u8
    requires { IsSome (event_asked streams.now question) }
    ensures { Tells (call W.ByteSink writer.old writer.new)
        (AnswersOf streams.now question) result }
{
    match has_order(alloc, streams) {
        Ok(true) => answer_ordered(alloc, streams, question, writer),
        Ok(false) => tell_line(writer, OutputLine::NoOrder, 1),
        Err(_) => tell_fault(writer, ReadFault::Memory),
    }
}

/// Writes the answer about an event, or that it isn't there.
fn answer_streams<W: ByteSink>(
    alloc: Global,
    streams: &Streams,
    question: Question,
    writer: &mut W,
) -> u8
    ensures { Tells (call W.ByteSink writer.old writer.new)
        (AnswersOf streams.now question) result }
{
    let (pid, index) = question.place;
    match streams.event(pid, index) {
        Some(_) => answer_there(alloc, streams, question, writer),
        None => tell_line(writer, OutputLine::NoEvent(pid, index), 1),
    }
}

/// Reads a bundle within the greater limits and writes the event that is asked about, what it
/// follows or what follows it, and so on as far as the reach goes, with what that rests on and
/// status 0. If there is no such event, or no order of the events has each receive after its send,
/// it writes that with status 1. Faulty input is 2; running out of memory, and a reader or a writer
/// that fails, are 4. Its time grows as the size of the input does.
pub fn run_why<R: ByteSource, W: ByteSink>(
    alloc: Global,
    reader: &mut R,
    writer: &mut W,
    question: Question,
) -> u8
    ensures told { Tells (call W.ByteSink writer.old writer.new)
        (Owes greater (call R.ByteSource reader.old reader.new) (IsWhy question)) result }

    // The meaning of an event that is there, and of a no, in the machine's own words.
    ensures found { result ≡ 0 → Says greater (call R.ByteSource reader.old reader.new)
        (call W.ByteSink writer.old writer.new) (MeansTold question) }
    ensures untold { result ≡ 1 → Says greater (call R.ByteSource reader.old reader.new)
        (call W.ByteSink writer.old writer.new) (MeansUntold question) }
{
    hops_are_true();
    a_run_has_an_order();
    match read_within(alloc, reader, Limits::GREATER) {
        Ok(bundle) => answer_streams(alloc, &bundle.streams, question, writer),
        Err(fault) => tell_fault(writer, fault),
    }
}
