//! The meaning of the commands' outputs. The functions do nothing: their contracts are the
//! laws.

ghost use Rattle.std.specs.Prelude.{◌≤◌};
ghost use Rattle.st_core.specs.declared.types.Label.{Label};
ghost use Rattle.st_text.specs.declared.limits.Limits.{Limits};
ghost use Rattle.st_commands.specs.Audited.{IsAudited};
ghost use Rattle.st_commands.specs.Charted.{IsCharted};
ghost use Rattle.st_commands.specs.Checked.{IsChecked, top};
ghost use Rattle.st_commands.specs.Laws.{YesMeans, NoMeans, ShownIsYes, HasOutput, HasOneOutput};
ghost use Rattle.st_commands.specs.Laws.{FitsMeans, UnfitMeans, CertainTracesFit};
ghost use Rattle.st_commands.specs.Laws.{CertificateIsYes};
ghost use Rattle.st_commands.specs.Laws.{DrivenMeans, RecordedIsYes};
ghost use Rattle.st_commands.specs.Laws.{NeverStuck, NeverStuckInReplay};
ghost use Rattle.st_commands.specs.Replayed.{IsReplayed};

use st_audit::laws::{certain_streams_fit, one_finding};
use st_core::laws::a_verdict;

/// An output of the check with status 0 means that the bytes spell streams and acts, that the acts
/// are a run of the machine from zero clocks in which each process reports exactly its stream, and
/// that each reported receive follows its paired send.
pub fn yes_means()
    ensures { YesMeans }
{}

/// An output of the check with status 1 means that the bytes spell streams and acts, that the acts
/// are no such run, and that the named place shows it.
pub fn no_means()
    ensures { NoMeans }
{}

/// If the bytes spell streams and acts that show them, the output of the check has status 0.
pub fn shown_is_yes()
    ensures { ShownIsYes }
{}

/// An output of the audit with status 0 means that the bytes spell streams, and that what it writes
/// is their text with acts that are a run of the machine from zero clocks in which each process
/// reports exactly its stream.
pub fn fits_means()
    ensures { FitsMeans }
{}

/// An output of the audit with status 1 means that the bytes spell streams, and that the named
/// event is there and the reason holds at it.
pub fn unfit_means()
    ensures { UnfitMeans }
{}

/// The audit writes a certificate if the bytes spell streams of which no reason holds, or streams
/// of a run without a reset that reported everything.
pub fn certain_traces_fit()
    ensures { CertainTracesFit }
{
    certain_streams_fit();
}

/// The check of a certificate that is a text within the reader's limits says yes and the pairs.
pub fn certificate_is_yes()
    ensures { CertificateIsYes }
{}

/// An output of the drive with status 0 means that the bytes spell acts of listed processes, and
/// that what it writes is the text of streams and acts that are a run of the machine from zero
/// clocks in which each process reports exactly its stream and makes exactly its own acts of those,
/// in order.
pub fn driven_means()
    ensures { DrivenMeans }
{}

/// The check of a record that is a text within the reader's limits says yes.
pub fn recorded_is_yes()
    ensures { RecordedIsYes }
{}

/// Bytes have an output of the check, of the replay and of each label's chart, whatever the
/// reader's limits; of the replay if they let no more acts pass than a clock has counts.
pub fn an_answer()
    ensures check { (limits : Limits) → HasOutput (IsChecked limits) }
    ensures replay { (limits : Limits) → limits.acts ≤ top → HasOutput (IsReplayed limits) }
    ensures chart { (limits : Limits) (label : Label) → HasOutput (IsCharted limits label) }
{
    a_verdict();
}

/// Bytes have one output at most of the check, of the audit, of the replay and of each label's
/// chart, so whoever knows the bytes that were read knows which output is owed.
pub fn one_answer()
    ensures check { (limits : Limits) → HasOneOutput (IsChecked limits) }
    ensures audit { (limits : Limits) → HasOneOutput (IsAudited limits) }
    ensures replay { (limits : Limits) → HasOneOutput (IsReplayed limits) }
    ensures chart { (limits : Limits) (label : Label) → HasOneOutput (IsCharted limits label) }
{
    one_finding();
}

/// If the reader's limits let no more acts pass than a clock has counts, as those of the programs
/// do, no text has an act without a step, so `no stuck` never comes.
pub fn never_stuck()
    ensures check { NeverStuck }
    ensures replay { NeverStuckInReplay }
{}
