//! Outputs: a text written whole, and the status that goes with it, or 4 if the writer failed.

ghost use Rattle.std.specs.Prelude.{◌≡◌, MatchResult};
ghost use Rattle.st_check.specs.Answers.{verdict_of};
ghost use Rattle.st_text.specs.Spelling.{ended_line};
ghost use Rattle.st_commands.specs.Audited.{finding_status, report_output};
ghost use Rattle.st_commands.specs.Command.{Delivers, call};
ghost use Rattle.st_commands.specs.Output.{verdict_status, fault_status, judged, refusal_output};
ghost use Rattle.st_commands.specs.Output.{refused, bundled};

use crate::lines::{OutputLine, send_verdict};
use crate::words::Refusal;
use st_audit::Finding;
use st_chart::report;
use st_check::Verdict;
use st_core::{Act, ByteSink, Streams};
use st_text::{Device, ReadFault, TextLine, send_line, write_parts};

/// The status for a text that was written, or for a writer that failed.
pub fn status_of(sent: Result<(), Device>, status: u8) -> u8
    ensures { MatchResult sent (λ _. result ≡ status) (λ _. result ≡ 4) }
{
    match sent {
        Ok(()) => status,
        Err(_) => 4,
    }
}

fn verdict_status(verdict: &Verdict) -> u8
    ensures { result ≡ verdict_status (verdict_of verdict.now) }
{
    match verdict {
        Verdict::Yes(_) => 0,
        Verdict::Stuck(_) | Verdict::Differs(_) | Verdict::Left(_) => 1,
    }
}

fn finding_status(finding: &Finding) -> u8
    ensures { result ≡ finding_status finding.now }
{
    match finding {
        Finding::Fits(_, _) => 0,
        Finding::Unfit(_, _, _) => 1,
    }
}

fn fault_status(fault: ReadFault) -> u8
    ensures { result ≡ fault_status fault }
{
    match fault {
        ReadFault::Memory | ReadFault::Device => 4,
        ReadFault::TooLarge
        | ReadFault::Line(_)
        | ReadFault::Order(_)
        | ReadFault::Foreign(_)
        | ReadFault::Unknown(_)
        | ReadFault::TooMany(_)
        | ReadFault::Truncated => 2,
    }
}

/// Writes a line, and returns its status.
pub fn tell_line<W: ByteSink, L: TextLine>(writer: &mut W, line: L, status: u8) -> u8
    ensures { Delivers (call W.ByteSink writer.old writer.new)
        (record { text = ended_line (L.words line); status = status }) result }
{
    let sent = send_line(writer, line);
    status_of(sent, status)
}

/// Writes a verdict, and returns its status.
pub(crate) fn tell_verdict<W: ByteSink>(writer: &mut W, verdict: &Verdict) -> u8
    ensures { Delivers (call W.ByteSink writer.old writer.new)
        (judged (verdict_of verdict.now)) result }
{
    let sent = send_verdict(writer, verdict);
    status_of(sent, verdict_status(verdict))
}

/// Writes the report of what was found of streams, and returns its status.
pub fn tell_finding<W: ByteSink>(writer: &mut W, streams: &Streams, finding: &Finding) -> u8
    ensures { Delivers (call W.ByteSink writer.old writer.new)
        (report_output streams.now finding.now) result }
{
    let sent = report(writer, streams, finding);
    status_of(sent, finding_status(finding))
}

/// Writes a fault, and returns its status.
pub fn tell_fault<W: ByteSink>(writer: &mut W, fault: ReadFault) -> u8
    ensures { Delivers (call W.ByteSink writer.old writer.new) (refused fault) result }
{
    tell_line(writer, OutputLine::Fault(fault), fault_status(fault))
}

/// Writes the text of streams and acts, and returns its status.
pub fn tell_bundle<W: ByteSink>(writer: &mut W, streams: &Streams, acts: &[Act]) -> u8
    ensures { Delivers (call W.ByteSink writer.old writer.new)
        (bundled streams.now acts.now) result }
{
    let sent = write_parts(writer, streams, Some(acts));
    status_of(sent, 0)
}

/// Writes what is due if the words ask for no command: `fault memory` with status 4, or the usage
/// line with status 3. If the writer fails, the status is 4.
pub fn tell_refusal<W: ByteSink>(writer: &mut W, refusal: Refusal) -> u8
    ensures { Delivers (call W.ByteSink writer.old writer.new) (refusal_output refusal) result }
{
    match refusal {
        Refusal::Memory => tell_fault(writer, ReadFault::Memory),
        Refusal::Usage => tell_line(writer, OutputLine::Usage, 3),
    }
}
