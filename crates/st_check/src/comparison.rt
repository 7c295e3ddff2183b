//! Compares acts with streams, one act at a time, by the outcome of each act's step in a world.

ghost use Rattle.std.specs.Prelude.{◌≡◌, ◌<◌, ◌≤◌, ◌++◌, ◌↔◌, ℕ, [], ◌∷◌, length, slice_get};
ghost use Rattle.std.specs.Prelude.{slice_index};
ghost use Rattle.std.specs.Prelude.{IsTrue, IfOk, IfSome, IfNone, List, MatchBool, OnOk, Some};
ghost use Rattle.std.specs.Option.{ForSome};
ghost use Rattle.st_check.specs.Answers.{verdict_of};
ghost use Rattle.st_check.specs.Progress.{counts_with, pair_to, Differ, IsEven, IsLeft, IsPassedBy};
ghost use Rattle.st_check.specs.Progress.{NoneLeftBefore};
ghost use Rattle.st_core.specs.declared.types.Act.{Act as ActValue};
ghost use Rattle.st_core.specs.Run.{pids_of};
ghost use Rattle.st_core.specs.State.{zero_state, State};
ghost use Rattle.st_core.specs.Step.{step};
ghost use Rattle.st_core.specs.Streams.{IsStreams};
ghost use Rattle.st_core.specs.Verdict.{IsVerdict};
ghost use Rattle.st_world.specs.World.{outcome_to};

use crate::tags::retag;
use crate::verdict::Verdict;
use st_arena::Lists;
use st_core::{Act, Event, Pid, Sequence, Streams};
use st_world::Outcome;
use std::alloc::{AllocError, Global};

/// The comparison of acts with streams while the acts pass, without a world. A caller that steps a
/// world anyway gets the verdict of `check` from a comparison, without a second world.
#[derive(Drop)]
pub struct Comparison {
    /// How many events each process reported, in the order of the streams.
    counts: Vec<u64>,
    /// The numbers of the sends whose messages lie in each process's queue.
    tags: Lists<u64>,
    /// The numbers of each reported receive and of the send whose message it took.
    pairs: Sequence<(u64, u64)>,
}

impl Comparison {
    /// Makes the comparison of no acts. Fails if memory runs out.
    pub fn new(alloc: Global, streams: &Streams) -> Result<Comparison, AllocError>
        ensures { IfOk result (λ c. (top : ℕ) →
            IsPassedBy top streams.now [] (zero_state (pids_of streams.now)) c) }
    {
        let pids = streams.pids();
        let counts = vec![in alloc; 0u64; pids.len()]?;
        let tags = Lists::new(alloc, pids.len())?;
        Ok(Comparison {
            counts,
            tags,
            pairs: Sequence::new(alloc),
        })
    }

    /// Takes the next act, which has this number, with the outcome of its step. Returns false if
    /// the act reports an event that isn't its actor's next; then the acts don't pass, and nothing
    /// is known of the comparison any more. Fails if memory runs out.
    #[inline]
    pub fn advance(
        &mut self,
        streams: &Streams,
        number: u64,
        act: &Act,
        outcome: &Outcome,
    ) -> Result<bool, AllocError>
        requires { IsEven streams.now self.old }
        ensures { IfOk result (λ passes. (top : ℕ) (acts : List ActValue) (old new : State) →
            length acts ≡ number → IsPassedBy top streams.now acts old self.old →
            step top old act.now ≡ Some (outcome_to outcome.now new) →
            MatchBool passes (IsPassedBy top streams.now (acts ++ act.now ∷ []) new self.new)
            (Differ top streams.now (acts ++ act.now ∷ []))) }
    {
        let me = act.actor();
        let Some(place) = streams.place_of(me) else {
            return Ok(false);
        };
        if !self.count(place, streams.events(me), outcome.report) {
            return Ok(false);
        }
        let sent = retag(&mut self.tags, streams, place, act, number, outcome.place)?;
        pair(&mut self.pairs, number, outcome.report.and(sent))?;
        Ok(true)
    }

    /// Counts the event that the process at this place reported, if it reported one. Returns false
    /// if that isn't the next of its events.
    fn count(&mut self, place: usize, events: &[Event], report: Option<Event>) -> bool
        requires { place < length self.old.counts.items }
        ensures next { IsTrue result ↔
            ForSome report (λ e. slice_get events.now (slice_index self.old.counts.items place)
            ≡ Some e) }
        ensures counts { IsTrue result
            → self.new.counts.items ≡ counts_with self.old.counts.items place report }
        ensures tags { self.new.tags ≡ self.old.tags }
        ensures pairs { self.new.pairs ≡ self.old.pairs }
    {
        let Some(event) = report else {
            return true;
        };
        let index = self.counts[place];
        if !is_at(events, index, &event) {
            return false;
        }
        self.counts[place] = index + 1;
        true
    }

    fn first_left(&self, streams: &Streams) -> Option<Pid>
        requires { length self.now.counts.items ≡ length (pids_of streams.now) }
        ensures found { IfSome result (IsLeft streams.now self.now.counts.items) }
        ensures none { IfNone result
            (NoneLeftBefore streams.now self.now.counts.items (length (pids_of streams.now))) }
        ensures streams { IsStreams streams.now }
    {
        let pids = streams.pids();
        for place in 0..pids.len() {
            let pid = pids[place];
            if self.counts[place] < streams.len(pid) {
                return Some(pid);
            }
        }
        None
    }

    /// Returns the verdict on the acts so far, which pass.
    pub fn into_verdict(self, streams: &Streams) -> Verdict
        requires { IsEven streams.now self }
        ensures { (top : ℕ) (acts : List ActValue) (s : State) →
            IsPassedBy top streams.now acts s self →
            IsVerdict top streams.now acts (verdict_of result) }
    {
        match self.first_left(streams) {
            Some(pid) => Verdict::Left(pid),
            None => {
                let Comparison {
                    counts: _,
                    tags: _,
                    pairs,
                } = self;
                Verdict::Yes(pairs)
            }
        }
    }
}

fn is_at(events: &[Event], index: u64, event: &Event) -> bool
    ensures { IsTrue result ↔ (slice_get events.now index ≡ Some event.now) }
{
    match events.get(index as usize) {
        None => false,
        Some(found) => is_same(found, event),
    }
}

fn is_same(one: &Event, other: &Event) -> bool
    ensures { IsTrue result ↔ (one.now ≡ other.now) }
{
    *one == *other
}

/// Adds the pair of a receive and the send whose message it took, if there is one.
fn pair(pairs: &mut Sequence<(u64, u64)>, receive: u64, send: Option<u64>) -> Result<(), AllocError>
    ensures { OnOk result (pairs.new ≡ pairs.old ++ pair_to receive send) }
{
    let Some(send) = send else {
        return Ok(());
    };
    pairs.push((receive, send))?;
    Ok(())
}
