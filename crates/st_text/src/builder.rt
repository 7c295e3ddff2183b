//! Builds a bundle from the lines of a text, from the header on, and finds the fault of the next
//! line. It knows lines, and nothing of bytes. Events go straight into the draft, and acts into
//! their list.

ghost use Rattle.std.specs.Prelude.{◌≡◌, ◌≤◌, ◌+◌, ◌&&◌, ◌||◌, not, List, ◌∷◌, [], Some};
ghost use Rattle.std.specs.Ordering.{is_lt};
ghost use Rattle.st_core.specs.Pid.{pid_cmp};
ghost use Rattle.st_text.specs.declared.limits.Limits.{Limits};
ghost use Rattle.st_text.specs.declared.line.Line.{Line};
ghost use Rattle.st_text.specs.declared.line.Line.TheVariants as lines;
ghost use Rattle.st_text.specs.Parts.Counts.{acts_len, acts_lines};
ghost use Rattle.st_text.specs.Fault.{last_passes};

use crate::fault::ReadFault;
use crate::limits::Limits;
use crate::line::Line;
use crate::remote::{is_act_remote, is_away, is_event_remote};
use crate::step::Step;
use st_core::{Act, Draft, Event, Pid, Sequence};
use std::alloc::Global;

/// The bundle of the lines so far. Each limit on its counts is a `u32`, so they can't overflow.
#[derive(Debug, Drop)]
pub(crate) struct BundleBuilder {
    pub(crate) alloc: Global,
    /// Whether the header was `seqtrace 2`.
    pub(crate) wide: bool,
    /// Whether a line named a pid of another node than 0.
    pub(crate) remote: bool,
    pub(crate) draft: Draft,
    pub(crate) acts: Option<Sequence<Act>>,
    /// The process of the last process line.
    pub(crate) last: Option<Pid>,
    pub(crate) lines: u64,
    pub(crate) processes: u64,
    pub(crate) events: u64,
    ghost few_processes: { processes ≤ 4294967295 },
    ghost few_events: { events ≤ 4294967295 },
    ghost few_acts: { acts_len acts ≤ 4294967295 },
    ghost counted: { lines ≡ 1 + processes + events + acts_lines acts },
}

/// Returns whether the header keeps a line out: it is header 1, and the line names a pid of
/// another node. A function of its own, as `is_either` is, so that its caller's proof has one path
/// and not two.
fn keeps_out(wide: bool, away: bool) -> bool
    ensures { result ≡ (away && not wide) }
{
    away && !wide
}

fn is_either(a: bool, b: bool) -> bool
    ensures { result ≡ (a || b) }
{
    a || b
}

/// Returns whether there is a last process and the pid isn't above its pid.
fn is_out_of_order(last: Option<Pid>, pid: Pid) -> bool
    ensures { result ≡ last_passes (λ q. not (is_lt (pid_cmp q pid))) last }
{
    match last {
        None => false,
        Some(last) => !last.cmp(&pid).is_lt(),
    }
}

impl BundleBuilder {
    ghost use Rattle.st_text.specs.Parts.Builder.{IsBuilt, Takes, TakesLine};

    /// Makes the builder of a text that has only its header so far. Takes no memory.
    pub(crate) fn new(alloc: Global, wide: bool) -> BundleBuilder
        ensures { IsBuilt result (lines.Header wide ∷ []) }
    {
        BundleBuilder {
            alloc,
            wide,
            remote: false,
            draft: Draft::new(alloc),
            acts: None,
            last: None,
            lines: 1,
            processes: 0,
            events: 0,
        }
    }

    fn open(&mut self, limits: Limits, pid: Pid) -> Step
        ensures { (ls : List Line) → IsBuilt self.old ls
            → Takes limits ls (lines.Process pid) self.new result }
    {
        let n = self.lines + 1;
        let away = is_away(pid);
        if self.acts.is_some() {
            return Step::Stops(ReadFault::Line(n));
        }
        if keeps_out(self.wide, away) {
            return Step::Stops(ReadFault::Line(n));
        }
        if is_out_of_order(self.last, pid) {
            return Step::Stops(ReadFault::Order(n));
        }
        if self.processes >= limits.processes as u64 {
            return Step::Stops(ReadFault::TooMany(n));
        }
        // `Order` was tested above, so that it comes before `TooMany`. The draft tests it again,
        // as it does for each caller, so here only memory can have run out.
        let Ok(()) = self.draft.open(pid) else {
            return Step::Halts;
        };
        self.last = Some(pid);
        self.processes += 1;
        self.lines += 1;
        self.remote = is_either(self.remote, away);
        Step::Goes
    }

    /// Takes an event line.
    #[inline(always)]
    fn report(&mut self, limits: Limits, event: &Event) -> Step
        ensures { (ls : List Line) → IsBuilt self.old ls
            → Takes limits ls (lines.Event event.now) self.new result }
    {
        let n = self.lines + 1;
        let away = is_event_remote(event);
        if self.acts.is_some() {
            return Step::Stops(ReadFault::Line(n));
        }
        if keeps_out(self.wide, away) {
            return Step::Stops(ReadFault::Line(n));
        }
        let Some(last) = self.last else {
            return Step::Stops(ReadFault::Line(n));
        };
        if !event.is_own(last) {
            return Step::Stops(ReadFault::Foreign(n));
        }
        if self.events >= limits.events as u64 {
            return Step::Stops(ReadFault::TooMany(n));
        }
        // `Foreign` was tested above, so that it comes before `TooMany`. The draft tests it again,
        // as it does for each caller, so here only memory can have run out.
        let Ok(()) = self.draft.add(last, *event) else {
            return Step::Halts;
        };
        self.events += 1;
        self.lines += 1;
        self.remote = is_either(self.remote, away);
        Step::Goes
    }

    /// Takes the word before the acts.
    fn begin(&mut self) -> Step
        ensures { (limits : Limits) (ls : List Line) → IsBuilt self.old ls
            → Takes limits ls lines.Acts self.new result }
    {
        if self.acts.is_some() {
            return Step::Stops(ReadFault::Line(self.lines + 1));
        }
        self.acts = Some(Sequence::new(self.alloc));
        self.lines += 1;
        Step::Goes
    }

    /// Takes an act line.
    #[inline(always)]
    fn act(&mut self, limits: Limits, act: &Act) -> Step
        ensures { (ls : List Line) → IsBuilt self.old ls
            → Takes limits ls (lines.Act act.now) self.new result }
    {
        let n = self.lines + 1;
        let away = is_act_remote(act);
        if keeps_out(self.wide, away) {
            return Step::Stops(ReadFault::Line(n));
        }
        match &mut self.acts {
            None => return Step::Stops(ReadFault::Line(n)),
            Some(acts) => {
                if acts.len() >= limits.acts as usize {
                    return Step::Stops(ReadFault::TooMany(n));
                }
                let Ok(()) = acts.push(*act) else {
                    return Step::Halts;
                };
            }
        }
        self.lines += 1;
        self.remote = is_either(self.remote, away);
        Step::Goes
    }

    /// Accepts a line.
    #[inline(always)]
    fn accept_line(&mut self, limits: Limits, line: &Line) -> Step
        ensures { (ls : List Line) → IsBuilt self.old ls
            → Takes limits ls line.now self.new result }
    {
        match line {
            Line::Process(pid) => self.open(limits, *pid),
            Line::Event(event) => self.report(limits, event),
            Line::Acts => self.begin(),
            Line::Act(act) => self.act(limits, act),
            Line::Header(_) => Step::Stops(ReadFault::Line(self.lines + 1)),
        }
    }

    /// Accepts the next line; `said` is `None` if its bytes aren't a line.
    #[inline(always)]
    pub(crate) fn accept(&mut self, limits: Limits, said: &Option<Line>) -> Step
        ensures { (ls : List Line) → IsBuilt self.old ls
            → TakesLine limits ls said.now self.new result }
    {
        match said {
            Some(line) => self.accept_line(limits, line),
            None => Step::Stops(ReadFault::Line(self.lines + 1)),
        }
    }
}
