//! The lines that are written alone, through a buffer on the stack, so that writing takes no
//! memory.

ghost use Rattle.std.specs.Prelude.{◌≡◌, ◌<◌, ◌+◌, ◌++◌, codes};
ghost use Rattle.arrayvec.specs.ArrayVec.{array_vec_len};
ghost use Rattle.st_text.specs.Room.{line_room, HasRoom, Puts};
ghost use Rattle.st_text.specs.Spelling as spelled;
ghost use Rattle.st_chart.specs.Words.{place_words};
ghost use Rattle.st_chart.specs.Room.{place_room};
ghost use Rattle.seqtool_commands.specs.Lines.{never_words, words_of, words_room};
ghost use Rattle.seqtool_commands.specs.WhyWords.{premise_text};

use crate::premise::Premise;
use lack_decide::Never;
use st_chart::put_place_after;
use st_core::Pid;
use st_text::{Buffer, TextLine, put_bytes, put_numbered, put_pid};

/// The line of the version. A build that isn't proved says so.
const VERSION: &str = "seqtool 1.0.0";

/// A line that is written alone.
#[derive(Clone, Copy, Debug)]
pub(crate) enum OutputLine {
    /// The bundle has more acts, or more processes, than the reader takes.
    Long,
    /// The checker doesn't accept the acts that were built.
    Uncertified,
    /// No reason holds of the streams, and what was built doesn't complete them.
    Uncompleted,
    /// The acts show the streams.
    Yes,
    /// The act with this number has no step.
    Stuck(u64),
    /// The act with this number reports something else than the next event.
    Differs(u64),
    /// This process has events left.
    Left(Pid),
    /// The input has no acts.
    NoActs,
    /// This many events were added.
    Added(u64),
    /// This reason against the event at this place rules out a run without a reset.
    Never(Pid, u64, Never),
    /// The streams don't list this process of the completion.
    Unlisted(Pid),
    /// There is no event at this place.
    NoEvent(Pid, u64),
    /// No order of the events has each receive after its send.
    NoOrder,
    /// The lines of `why` hold in these runs.
    Runs,
    Premise(Premise),
    Usage,
    Version,
}

/// Appends the words of a reason against an event of a process.
fn put_never_words(buffer: &mut Buffer, pid: Pid, never: Never)
    requires { HasRoom (13 + place_room) buffer.old }
    ensures { Puts (13 + place_room) (never_words pid never) buffer.old buffer.new }
{
    match never {
        Never::PrevNotBefore => put_bytes(buffer, b"prevnotbefore"),
        Never::NotRising(index) => put_place_after(buffer, b"notrising ", pid, index),
        Never::Repeated(other, index) => put_place_after(buffer, b"repeated ", other, index),
        Never::Mismatch(other, index) => put_place_after(buffer, b"mismatch ", other, index),
        Never::Late(index) => put_place_after(buffer, b"late ", pid, index),
        Never::Unfounded => put_bytes(buffer, b"unfounded"),
        Never::TooHigh => put_bytes(buffer, b"toohigh"),
    }
}

fn put_never(buffer: &mut Buffer, pid: Pid, index: u64, never: Never)
    requires { HasRoom words_room buffer.old }
    ensures { Puts words_room
        (codes "never " ++ place_words pid index ++ codes " " ++ never_words pid never)
        buffer.old buffer.new }
{
    put_place_after(buffer, b"never ", pid, index);
    put_bytes(buffer, b" ");
    put_never_words(buffer, pid, never);
}

fn put_unlisted(buffer: &mut Buffer, pid: Pid)
    requires { HasRoom words_room buffer.old }
    ensures { Puts words_room (codes "unlisted " ++ spelled.pid pid) buffer.old buffer.new }
{
    put_bytes(buffer, b"unlisted ");
    put_pid(buffer, pid);
}

fn put_left(buffer: &mut Buffer, pid: Pid)
    requires { HasRoom words_room buffer.old }
    ensures { Puts words_room (codes "no left " ++ spelled.pid pid) buffer.old buffer.new }
{
    put_bytes(buffer, b"no left ");
    put_pid(buffer, pid);
}

fn put_premise(buffer: &mut Buffer, premise: Premise)
    requires { HasRoom words_room buffer.old }
    ensures { Puts words_room (premise_text premise) buffer.old buffer.new }
{
    match premise {
        Premise::ReportsTakes => put_bytes(
            buffer,
            b"(1) if in between, or before a beginning, its process took no token whose receive \
                wasn't reported",
        ),
        Premise::KeepsCounters => put_bytes(
            buffer,
            b"(2) if there it put no token back, and spawned no process",
        ),
        Premise::BeginsNothing => {
            put_bytes(buffer, b"(3) if there it made no token, and set no label");
        }
        Premise::ReportsLike => {
            put_bytes(buffer, b"(4) if each send of such a message was reported");
        }
    }
}

impl TextLine for OutputLine {
    ghost words = { words_of };

    fn put_words(self, buffer: &mut Buffer)
        requires { HasRoom line_room buffer.old }
        ensures items { buffer.new.items ≡ buffer.old.items ++ words_of self }
        ensures len { array_vec_len buffer.new < array_vec_len buffer.old + line_room }
    {
        match self {
            OutputLine::Long => put_bytes(buffer, b"long"),
            OutputLine::Uncertified => put_bytes(buffer, b"fault certificate"),
            OutputLine::Uncompleted => put_bytes(buffer, b"fault completion"),
            OutputLine::Yes => put_bytes(buffer, b"yes"),
            OutputLine::Stuck(number) => put_numbered(buffer, b"no stuck ", number),
            OutputLine::Differs(number) => put_numbered(buffer, b"no differs ", number),
            OutputLine::Left(pid) => put_left(buffer, pid),
            OutputLine::NoActs => put_bytes(buffer, b"fault no acts"),
            OutputLine::Added(count) => put_numbered(buffer, b"added ", count),
            OutputLine::Never(pid, index, never) => put_never(buffer, pid, index, never),
            OutputLine::Unlisted(pid) => put_unlisted(buffer, pid),
            OutputLine::NoEvent(pid, index) => put_place_after(buffer, b"no event ", pid, index),
            OutputLine::NoOrder => put_bytes(
                buffer,
                b"no order of the events has each receive after its send",
            ),
            OutputLine::Runs => put_bytes(
                buffer,
                b"this holds in each run of a standard node without a reset that reports the trace",
            ),
            OutputLine::Premise(premise) => put_premise(buffer, premise),
            OutputLine::Usage => put_bytes(
                buffer,
                b"usage: seqtool audit|renumber [FILE], or check [--node] [FILE], or complete \
                    [--as added|streams|acts] [FILE], or why PID INDEX [--effects] [FILE]",
            ),
            OutputLine::Version => put_bytes(buffer, VERSION.as_bytes()),
        }
    }
}
