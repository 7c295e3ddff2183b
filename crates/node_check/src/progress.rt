//! Acts that pass one by one: the state that they lead to, and the number of events that match
//! each stream.

ghost use Rattle.std.specs.Prelude.{◌≡◌, ◌<◌, ◌+◌, ◌^◌, ◌↔◌, [], length, map, slice_get};
ghost use Rattle.std.specs.Prelude.{slice_index, take};
ghost use Rattle.std.specs.Prelude.{IsTrue, IfErr, IfNone, IfOk, IfSome, List, OnOk, Some};
ghost use Rattle.node_check.specs.Progress.{counts_after, stop_by, HasPassedOnNode, IsLeftAt};
ghost use Rattle.node_check.specs.Progress.{IsNextEvent, IsStopOnNode, NoneIsLeftBefore};
ghost use Rattle.node_check.specs.Verdict.{IsNodeVerdict};
ghost use Rattle.node_machine.specs.Node.{NodeAct as NodeActValue};
ghost use Rattle.st_core.specs.Run.{pids_of};

use crate::acts::ToNodeAct;
use crate::processes::{Processes, StepFault};
use crate::verdict::NodeVerdict;
use st_core::{Event, Pid, Streams};
use std::alloc::{AllocError, Global};

/// The state of a check while acts pass.
#[derive(Drop)]
pub(crate) struct Progress {
    /// The processes, in the state that the acts lead to.
    processes: Processes,
    /// The number of events that each process reported, in the order of the streams.
    counts: Vec<u64>,
}

/// Why the next act doesn't pass.
pub(crate) enum Stop {
    /// Memory ran out.
    Memory,
    /// The act has no step.
    Stuck,
    /// The act reports another event than its actor's next.
    Differs,
}

fn stop_by(fault: StepFault) -> Stop
    ensures { result ≡ stop_by fault }
{
    match fault {
        StepFault::Memory => Stop::Memory,
        StepFault::Unknown => Stop::Stuck,
    }
}

fn is_same(one: &Event, other: &Event) -> bool
    ensures { IsTrue result ↔ (one.now ≡ other.now) }
{
    *one == *other
}

fn is_at(events: &[Event], index: u64, event: &Event) -> bool
    ensures { IsTrue result ↔ (slice_get events.now index ≡ Some event.now) }
{
    match events.get(index as usize) {
        None => false,
        Some(found) => is_same(found, event),
    }
}

impl Progress {
    pub(crate) fn new(alloc: Global, streams: &Streams) -> Result<Progress, AllocError>
        ensures { IfOk result (λ p. HasPassedOnNode streams.now [] p) }
    {
        let pids = streams.pids();
        let processes = Processes::new(alloc, pids)?;
        let counts = vec![in alloc; 0u64; pids.len()]?;
        Ok(Progress { processes, counts })
    }

    /// Counts the report of the process at a place, if there is one. Returns false if it isn't the
    /// process's next event.
    fn count(&mut self, place: usize, events: &[Event], report: Option<Event>) -> bool
        requires { place < length self.old.counts.items }
        ensures next { IsTrue result
            ↔ IsNextEvent events.now (slice_index self.old.counts.items place) report }
        ensures counts { IsTrue result
            → self.new.counts.items ≡ counts_after self.old.counts.items place report }
        ensures processes { self.new.processes ≡ self.old.processes }
    {
        let Some(event) = report else {
            return true;
        };
        let index = self.counts[place];
        if !is_at(events, index, &event) {
            return false;
        }
        self.counts[place] = index + 1;
        true
    }

    /// Takes act `number` if it passes.
    #[inline]
    pub(crate) fn advance<A: ToNodeAct>(
        &mut self,
        streams: &Streams,
        acts: &[A],
        number: usize,
    ) -> Result<(), Stop>
        requires within { number < length acts.now }
        requires few { number + 1 < 2 ^ 64 }
        requires passed { HasPassedOnNode streams.now (take number (map A.on_node acts.now))
            self.old }
        ensures passed { OnOk result
            (HasPassedOnNode streams.now (take (number + 1) (map A.on_node acts.now)) self.new) }
        ensures stop { IfErr result
            (IsStopOnNode streams.now (take (number + 1) (map A.on_node acts.now))) }
    {
        let act = acts[number].to_node_act();
        let me = act.actor();
        let Some(place) = streams.place_of(me) else {
            return Err(Stop::Stuck);
        };
        let report = match self.processes.step(streams, place, number as u64, &act) {
            Ok(report) => report,
            Err(fault) => return Err(stop_by(fault)),
        };
        if !self.count(place, streams.events(me), report) {
            return Err(Stop::Differs);
        }
        Ok(())
    }

    /// Returns the first process with events left.
    fn first_left(&self, streams: &Streams) -> Option<Pid>
        requires { length self.now.counts.items ≡ length (pids_of streams.now) }
        ensures found { IfSome result (IsLeftAt streams.now self.now.counts.items) }
        ensures none { IfNone result
            (NoneIsLeftBefore streams.now self.now.counts.items (length (pids_of streams.now))) }
    {
        let pids = streams.pids();
        for place in 0..pids.len() {
            let pid = pids[place];
            if self.counts[place] < streams.len(pid) {
                return Some(pid);
            }
        }
        None
    }

    /// Returns the verdict of the acts so far, all of which passed.
    pub(crate) fn verdict(&self, streams: &Streams) -> NodeVerdict
        requires { length self.now.counts.items ≡ length (pids_of streams.now) }
        ensures { (acts : List NodeActValue) → HasPassedOnNode streams.now acts self.now
            → IsNodeVerdict streams.now acts result }
    {
        match self.first_left(streams) {
            Some(pid) => NodeVerdict::Left(pid),
            None => NodeVerdict::Yes,
        }
    }
}
