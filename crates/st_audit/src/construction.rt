//! The auditor's construction: makes the acts of one item after the other, and steps each act in a
//! world that begins at zero clocks.
//!
//! After each item each process has the clock and the last count that the items so far give it.
//! The construction halts if a reason of the auditor's own holds of an item, or if the acts don't
//! go the way of the streams; in the second case the checker judges the acts. If it doesn't halt,
//! their verdict is known: they were compared with the streams on the way.

ghost use Rattle.std.specs.Prelude.{◌≡◌, ◌+◌, ◌<◌, ◌↔◌, ◌&&◌, [], ◌∷◌, ◌++◌, length, not, take, ℕ};
ghost use Rattle.std.specs.Prelude.{option_map, if◌then◌else◌, slice_get, IfOk, IfSome, IsTrue};
ghost use Rattle.std.specs.Prelude.{List, None, OnOk, Some};
ghost use Rattle.st_check.specs.Progress.{IsEven, IsPassedBy};
ghost use Rattle.st_core.specs.declared.types.Act.{Act as ActValue};
ghost use Rattle.st_core.specs.Step.{step};
ghost use Rattle.st_core.specs.Run.{pids_of, Stream};
ghost use Rattle.st_core.specs.declared.types.Event.{Event as EventValue};
ghost use Rattle.st_core.specs.State.{process, zero_state, State};
ghost use Rattle.st_pair.specs.Links.{IsPairing};
ghost use Rattle.st_pair.specs.Places.{event_at, is_stamp};
ghost use Rattle.st_order.specs.declared.item.Item.{Item as ItemValue};
ghost use Rattle.st_order.specs.declared.item.Item.TheVariants as item;
ghost use Rattle.st_order.specs.Items.{event_of};
ghost use Rattle.st_plan.specs.Build.{flags_of, start_of, tracers_after};
ghost use Rattle.st_plan.specs.Moves.{earlier_of, move_by};
ghost use Rattle.st_audit.specs.Progress.{acts_turn, if_told, is_below, is_too_wide, is_uncaused};
ghost use Rattle.st_audit.specs.Progress.{item_turn, missing_count, move_skip, move_turn};
ghost use Rattle.st_audit.specs.Progress.{report_turn, stamp_skip, stamp_turn, take_turn};
ghost use Rattle.st_audit.specs.Progress.{IsCountedAs, IsMatched, IsSoFar, Meets, SaysNothing};
ghost use Rattle.st_audit.specs.Progress.{TellsLast, ArePrepared, TellsOne};
ghost use Rattle.st_world.specs.World.{outcome_to};

use st_check::Comparison;
use st_core::{Act, Event, Flags, Kind, Pid, Sequence, Serial, Streams, Want};
use st_order::Item;
use st_pair::Pairing;
use st_plan::{QUIET, Start, Tells, ready};
use st_world::{Outcome, StepFault, World};
use std::alloc::{AllocError, Global};

/// The most counts that may be missing before one item. Each is filled in by an act, so the limit
/// bounds what one damaged event can cost.
const MOST_SKIPPED: u64 = 1_000;

/// The most counts that may be missing before all items together, so that many damaged events
/// can't cost more.
const MOST_SKIPPED_IN_ALL: u64 = 1_000_000;

/// Why the construction halts.
#[derive(Clone, Copy, Debug, PartialEq, Eq)]
pub(crate) enum Halt {
    /// Memory ran out.
    Memory,
    /// The item is uncaused.
    Uncaused,
    /// Too many counts are missing before the item.
    TooWide,
    /// The acts don't go the way of the streams at the item: it isn't the next of its process,
    /// say, or its acts don't report its event.
    Stopped,
}

/// The acts so far, and the world that they lead to.
#[derive(Drop)]
pub(crate) struct Construction<const TOP: u64> {
    world: World<TOP>,
    acts: Sequence<Act>,
    /// The comparison of the acts with the streams, as long as it passes.
    comparison: Option<Comparison>,
    /// For each process the number of its events that have their acts, in the order of the
    /// streams.
    told: Vec<u64>,
    /// The number of counts that were missing so far.
    skipped: u64,
}

/// Returns whether the serial's prev is below the clock, and isn't the last count.
fn is_uncaused(start: &Start, serial: Serial) -> bool
    ensures { result ≡ is_uncaused start.now serial }
{
    serial.prev != start.last && serial.prev < start.clock
}

/// Returns how many counts between the clock and the serial's own are missing.
fn missing_count(start: &Start, serial: Serial) -> u64
    ensures { result ≡ missing_count start.now serial }
{
    serial.this.saturating_sub(1).saturating_sub(start.clock)
}

/// Returns the number of missing counts with `more` added; none if there are too many.
fn with_skipped(skipped: u64, more: u64) -> Option<u64>
    ensures { result ≡ (if is_too_wide skipped more then None else Some (more + skipped)) }
{
    if more > MOST_SKIPPED {
        return None;
    }
    let total = more.saturating_add(skipped);
    if total > MOST_SKIPPED_IN_ALL {
        return None;
    }
    Some(total)
}

/// Returns the flags of the token with which an event is stamped: the event's own flag if it is
/// told, and at a send the flag `receive` if the receive that is paired with it is told.
fn flags_of<M: Tells>(marks: &M, pairing: &Pairing, pid: Pid, index: u64, event: &Event) -> Flags
    ensures { (streams : List Stream) → IsPairing streams pairing.now →
        result ≡ flags_of streams (M.marks marks.now)
        (move_by (item.Reported pid index) event.now) }
{
    match event.kind {
        Kind::Send => Flags {
            send: marks.is_told(pid, index),
            receive: match pairing.receiver(pid, index) {
                None => false,
                Some((receiver, place)) => marks.is_told(receiver, place),
            },
            print: false,
        },
        Kind::Receive => QUIET,
        Kind::Print => Flags {
            send: false,
            receive: false,
            print: marks.is_told(pid, index),
        },
    }
}

/// Returns whether the event is a send or a print.
fn is_stamp(event: &Event) -> bool
    ensures { result ≡ is_stamp event.now }
{
    match event.kind {
        Kind::Send | Kind::Print => true,
        Kind::Receive => false,
    }
}

/// Returns whether the report is the event if it is told, and none if it isn't.
fn is_report(report: Option<Event>, event: &Event, is_told: bool) -> bool
    ensures { IsTrue result ↔ (report ≡ if_told is_told event.now) }
{
    match report {
        None => !is_told,
        Some(found) => is_told && found == *event,
    }
}

/// Compares the report of act `number` with the streams, if all acts before it passed. Ends the
/// comparison if the act doesn't pass.
fn compare(
    comparison: &mut Option<Comparison>,
    streams: &Streams,
    number: u64,
    act: &Act,
    outcome: &Outcome,
) -> Result<(), AllocError>
    requires { IfSome comparison.old (IsEven streams.now) }
    ensures { OnOk result ((top : ℕ) (acts : List ActValue) (old new : State) →
        length acts ≡ number → IfSome comparison.old (IsPassedBy top streams.now acts old) →
        step top old act.now ≡ Some (outcome_to outcome.now new) →
        IfSome comparison.new (IsPassedBy top streams.now (acts ++ act.now ∷ []) new)) }
{
    let Some(kept) = comparison else {
        return Ok(());
    };
    let passes = kept.advance(streams, number, act, outcome)?;
    if passes {
        return Ok(());
    }
    *comparison = None;
    Ok(())
}

impl<const TOP: u64> Construction<TOP> {
    /// Makes a construction without items and acts. Later acts are compared with the streams if a
    /// comparison is given.
    pub(crate) fn new(
        alloc: Global,
        streams: &Streams,
        comparison: Option<Comparison>,
    ) -> Result<Construction<TOP>, AllocError>
        requires { IfSome comparison
            (IsPassedBy TOP streams.now [] (zero_state (pids_of streams.now))) }
        ensures so_far { IfOk result (λ c. IsSoFar streams.now [] c) }
        ensures world { IfOk result (λ c. c.world ≡ zero_state (pids_of streams.now)) }
        ensures acts { IfOk result (λ c. c.acts ≡ []) }
        ensures matched { IfOk result (IsMatched streams.now) }
    {
        let pids = streams.pids();
        let Ok(world) = World::new(alloc, pids) else {
            return Err(AllocError);
        };
        let told = vec![in alloc; 0u64; pids.len()]?;
        Ok(Construction {
            world,
            acts: Sequence::new(alloc),
            comparison,
            told,
            skipped: 0,
        })
    }

    /// Makes a construction without items and acts, whose later acts are compared with the
    /// streams.
    pub(crate) fn compared(
        alloc: Global,
        streams: &Streams,
    ) -> Result<Construction<TOP>, AllocError>
        ensures so_far { IfOk result (λ c. IsSoFar streams.now [] c) }
        ensures world { IfOk result (λ c. c.world ≡ zero_state (pids_of streams.now)) }
        ensures acts { IfOk result (λ c. c.acts ≡ []) }
        ensures matched { IfOk result (IsMatched streams.now) }
    {
        let comparison = Comparison::new(alloc, streams)?;
        Construction::new(alloc, streams, Some(comparison))
    }

    pub(crate) fn into_acts(self) -> Sequence<Act>
        ensures { result ≡ self.entry.acts }
    {
        let (acts, _) = self.into_parts();
        acts
    }

    /// Returns the acts, and their comparison with the streams if all of them passed.
    pub(crate) fn into_parts(self) -> (Sequence<Act>, Option<Comparison>)
        ensures acts { result.0 ≡ self.entry.acts }
        ensures comparison { result.1 ≡ self.entry.comparison }
    {
        let Construction {
            world: _,
            acts,
            comparison,
            told: _,
            skipped: _,
        } = self;
        (acts, comparison)
    }

    /// Puts a tracer on each node, by its least pid.
    pub(crate) fn open(&mut self, streams: &Streams, pids: &[Pid]) -> Result<(), Halt>
        requires { IsMatched streams.now self.old }
        ensures exact { Meets SaysNothing
            (acts_turn TOP self.old.world (tracers_after None pids.now)) self.old result self.new }
        ensures so_far { (streams : List Stream) → IsSoFar streams [] self.old →
            OnOk result (IsSoFar streams [] self.new) }
        ensures matched { OnOk result (IsMatched streams.now self.new) }
    {
        let mut node: Option<u16> = None;
        for &pid in pids {
            if node != Some(pid.node()) {
                self.perform(streams, Act::Tracer(pid, true))?;
                node = Some(pid.node());
            }
        }
        Ok(())
    }

    /// Adds the act, steps it, and compares its report with the streams.
    fn perform(&mut self, streams: &Streams, act: Act) -> Result<Outcome, Halt>
        requires { IsMatched streams.now self.old }
        ensures exact { Meets TellsLast (acts_turn TOP self.old.world (act ∷ []))
            self.old result self.new }
        ensures skipped { self.new.skipped ≡ self.old.skipped }
        ensures told { self.new.told ≡ self.old.told }
        ensures matched { OnOk result (IsMatched streams.now self.new) }
    {
        let number = self.acts.len() as u64;
        let Ok(()) = self.acts.push(act) else {
            return Err(Halt::Memory);
        };
        let outcome = match self.world.step(&act) {
            Ok(outcome) => outcome,
            Err(StepFault::Memory) => return Err(Halt::Memory),
            Err(StepFault::Unknown | StepFault::ClockFull) => return Err(Halt::Stopped),
        };
        let Ok(()) = compare(&mut self.comparison, streams, number, &act, &outcome) else {
            return Err(Halt::Memory);
        };
        Ok(outcome)
    }

    fn perform_all(&mut self, streams: &Streams, plan: &[Act]) -> Result<(), Halt>
        requires { IsMatched streams.now self.old }
        ensures exact { Meets SaysNothing (acts_turn TOP self.old.world plan.now)
            self.old result self.new }
        ensures skipped { self.new.skipped ≡ self.old.skipped }
        ensures told { self.new.told ≡ self.old.told }
        ensures matched { OnOk result (IsMatched streams.now self.new) }
    {
        for &act in plan {
            self.perform(streams, act)?;
        }
        Ok(())
    }

    /// Returns the token, the clock and the last count of the process, if it is there.
    fn start(&self, pid: Pid) -> Option<Start>
        ensures { result ≡ option_map (λ r. start_of r.local) (process self.now.world pid) }
    {
        let local = self.world.local(pid)?;
        Some(Start {
            token: local.token(),
            clock: local.clock(),
            last: local.last(),
        })
    }

    /// Performs the acts that make the process ready for the event's serial, and then `act`, which
    /// stamps it.
    fn stamp(
        &mut self,
        streams: &Streams,
        plan: &mut Vec<Act>,
        pid: Pid,
        event: &Event,
        flags: Flags,
        act: Act,
    ) -> Result<Outcome, Halt>
        requires { IsMatched streams.now self.old }
        ensures exact { Meets TellsLast (stamp_turn self.old pid event.now flags act)
            self.old result self.new }
        ensures skipped { OnOk result
            (self.new.skipped ≡ stamp_skip self.old.world pid event.now + self.old.skipped) }
        ensures told { self.new.told ≡ self.old.told }
        ensures matched { OnOk result (IsMatched streams.now self.new) }
    {
        let Some(start) = self.start(pid) else {
            return Err(Halt::Stopped);
        };
        if is_uncaused(&start, event.serial) {
            return Err(Halt::Uncaused);
        }
        let Some(skipped) = with_skipped(self.skipped, missing_count(&start, event.serial)) else {
            return Err(Halt::TooWide);
        };
        self.skipped = skipped;
        plan.clear();
        let Ok(()) = ready(plan, pid, &start, event.label, event.serial, flags) else {
            return Err(Halt::Memory);
        };
        self.perform_all(streams, plan.as_slice())?;
        self.perform(streams, act)
    }

    /// Lets the process take the message whose token has the event's sender and count.
    fn receive(&mut self, streams: &Streams, pid: Pid, event: &Event) -> Result<Outcome, Halt>
        requires { IsMatched streams.now self.old }
        ensures exact { Meets TellsLast (take_turn self.old pid event.now)
            self.old result self.new }
        ensures skipped { self.new.skipped ≡ self.old.skipped }
        ensures told { self.new.told ≡ self.old.told }
        ensures matched { OnOk result (IsMatched streams.now self.new) }
    {
        match self.world.place_of(pid, event.from, event.serial.this) {
            None => Err(Halt::Stopped),
            Some(place) => self.perform(streams, Act::Receive(pid, Want::Place(place))),
        }
    }

    /// Performs the hidden send of the receive at this place. The send isn't told, but its receive
    /// may be.
    fn send_hidden<M: Tells>(
        &mut self,
        streams: &Streams,
        plan: &mut Vec<Act>,
        marks: &M,
        pid: Pid,
        index: u64,
    ) -> Result<(), Halt>
        requires { IsMatched streams.now self.old }
        ensures exact { (e : EventValue) → event_at streams.now pid index ≡ Some e →
            Meets SaysNothing (move_turn streams.now (M.marks marks.now) self.old
            (move_by (item.Hidden pid index) e)) self.old result self.new }
        ensures skipped { (e : EventValue) → event_at streams.now pid index ≡ Some e →
            OnOk result (self.new.skipped ≡
            move_skip self.old.world (move_by (item.Hidden pid index) e) + self.old.skipped) }
        ensures told { self.new.told ≡ self.old.told }
        ensures matched { OnOk result (IsMatched streams.now self.new) }
    {
        let Some(event) = streams.event(pid, index) else {
            return Err(Halt::Stopped);
        };
        let Some(to) = event.to else {
            return Err(Halt::Stopped);
        };
        let flags = Flags {
            send: false,
            receive: marks.is_told(pid, index),
            print: false,
        };
        let act = Act::Send(event.from, to, event.value);
        self.stamp(streams, plan, event.from, &event, flags, act)?;
        Ok(())
    }

    fn act<M: Tells>(
        &mut self,
        streams: &Streams,
        plan: &mut Vec<Act>,
        pairing: &Pairing,
        marks: &M,
        pid: Pid,
        index: u64,
        event: &Event,
    ) -> Result<Outcome, Halt>
        requires { IsMatched streams.now self.old }
        ensures exact { (streams : List Stream) → IsPairing streams pairing.now →
            Meets TellsLast (move_turn streams (M.marks marks.now) self.old
            (move_by (item.Reported pid index) event.now)) self.old result self.new }
        ensures skipped { OnOk result (self.new.skipped ≡ move_skip self.old.world
            (move_by (item.Reported pid index) event.now) + self.old.skipped) }
        ensures told { self.new.told ≡ self.old.told }
        ensures matched { OnOk result (IsMatched streams.now self.new) }
    {
        let flags = flags_of(marks, pairing, pid, index, event);
        match event.kind {
            Kind::Receive => self.receive(streams, pid, event),
            Kind::Print => {
                let act = Act::Print(pid, event.value);
                self.stamp(streams, plan, pid, event, flags, act)
            }
            Kind::Send => match event.to {
                None => Err(Halt::Stopped),
                Some(to) => {
                    let act = Act::Send(pid, to, event.value);
                    self.stamp(streams, plan, pid, event, flags, act)
                }
            },
        }
    }

    /// Returns whether the process's clock is below the event's count.
    fn is_below(&self, pid: Pid, event: &Event) -> bool
        ensures { result ≡ is_below self.now.world pid event.now }
    {
        match self.world.clock(pid) {
            None => true,
            Some(clock) => clock < event.serial.this,
        }
    }

    /// Returns whether the event is a stamp that isn't told, although the clock isn't below its
    /// count.
    fn is_high(&self, pid: Pid, event: &Event, is_told: bool) -> bool
        ensures { result ≡ (not is_told &&
            (is_stamp event.now && not (is_below self.now.world pid event.now))) }
    {
        !is_told && is_stamp(event) && !self.is_below(pid, event)
    }

    /// Performs the acts of the event at this place, if it is the next of its process. They report
    /// it exactly if it is told; if it isn't, the clock shows that its serial is the one stamped.
    fn report<M: Tells>(
        &mut self,
        streams: &Streams,
        plan: &mut Vec<Act>,
        pairing: &Pairing,
        marks: &M,
        pid: Pid,
        index: u64,
    ) -> Result<(), Halt>
        requires told { length self.old.told.items ≡ length streams.now }
        requires matched { IsMatched streams.now self.old }
        ensures exact { (e : EventValue) (n : ℕ) → event_at streams.now pid index ≡ Some e →
            IsPairing streams.now pairing.now →
            IsCountedAs streams.now self.old.told.items pid n →
            Meets SaysNothing (report_turn streams.now (M.marks marks.now) self.old n
            (move_by (item.Reported pid index) e)) self.old result self.new }
        ensures skipped { (e : EventValue) → event_at streams.now pid index ≡ Some e →
            OnOk result (self.new.skipped ≡
            move_skip self.old.world (move_by (item.Reported pid index) e) + self.old.skipped) }
        ensures tells { OnOk result
            (TellsOne streams.now pid index self.old.told.items self.new.told.items) }
        ensures told { length self.new.told.items ≡ length self.old.told.items }
        ensures matched { OnOk result (IsMatched streams.now self.new) }
    {
        let Some(place) = streams.place_of(pid) else {
            return Err(Halt::Stopped);
        };
        if self.told[place] != index {
            return Err(Halt::Stopped);
        }
        let Some(event) = streams.event(pid, index) else {
            return Err(Halt::Stopped);
        };
        let is_told = marks.is_told(pid, index);
        if self.is_high(pid, &event, is_told) {
            return Err(Halt::Stopped);
        }
        let told = self.act(streams, plan, pairing, marks, pid, index, &event)?;
        if !is_report(told.report, &event, is_told) {
            return Err(Halt::Stopped);
        }
        self.told[place] = index.saturating_add(1);
        Ok(())
    }

    /// Performs the acts of item `number`.
    pub(crate) fn append<M: Tells>(
        &mut self,
        streams: &Streams,
        plan: &mut Vec<Act>,
        pairing: &Pairing,
        marks: &M,
        items: &[Item],
        number: usize,
    ) -> Result<(), Halt>
        requires within { number < length items.now }
        requires prepared { ArePrepared streams.now pairing.now items.now }
        requires so_far { IsSoFar streams.now
            (earlier_of streams.now (take number items.now)) self.old }
        requires matched { IsMatched streams.now self.old }
        ensures exact { (x : ItemValue) (e : EventValue) → slice_get items.now number ≡ Some x →
            event_of streams.now x ≡ Some e →
            Meets SaysNothing (item_turn streams.now (M.marks marks.now) self.old
            (earlier_of streams.now (take number items.now)) (move_by x e))
            self.old result self.new }
        ensures so_far { OnOk result (IsSoFar streams.now
            (earlier_of streams.now (take (number + 1) items.now)) self.new) }
        ensures matched { OnOk result (IsMatched streams.now self.new) }
    {
        match items[number] {
            Item::Reported(pid, index) => self.report(streams, plan, pairing, marks, pid, index),
            Item::Hidden(pid, index) => self.send_hidden(streams, plan, marks, pid, index),
        }
    }
}
