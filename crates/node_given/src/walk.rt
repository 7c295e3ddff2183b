//! The walk over the events of a process.

ghost use Rattle.std.specs.Prelude.{◌≡◌, ◌<◌, ◌≤◌, ◌^◌, false, true, [], ◌∷◌, ◌++◌, List, ℕ, Some};
ghost use Rattle.std.specs.Prelude.{length, slice_get, take};
ghost use Rattle.std.specs.Prelude.{IfOk, IfSome, IsSome, OnOk, count_by};
ghost use Rattle.node_machine.specs.Readings.{is_receipt};
ghost use Rattle.st_core.specs.State.{zero_state};
ghost use Rattle.st_core.specs.Step.{Outcome};
ghost use Rattle.st_core.specs.declared.types.Pid.{Pid as PidValue};
ghost use Rattle.st_core.specs.declared.types.Serial.{Serial as SerialValue};
ghost use Rattle.node_machine.specs.Given.{IsMet};
ghost use Rattle.node_machine.specs.Node.{NodeAct};
ghost use Rattle.node_machine.specs.Premises.{PutsBackOwn, places, put_backs};
ghost use Rattle.node_machine.specs.Ways.{IsLowered};
ghost use Rattle.node_given.specs.Runs.{AreEventsOf};
ghost use Rattle.node_given.specs.declared.way.Way.TheVariants as way;
ghost use Rattle.node_machine.specs.declared.types.Seen.{Seen as SeenValue};
ghost use Rattle.node_given.specs.declared.way.Way.{Way as WayValue};
ghost use Rattle.node_given.specs.Walk.{AreFit, IsWay, Knows, names_put_back};

use crate::clocks::{behind_stamp, some_goes_on};
use crate::counts::{clock_of_answer, count_before, last_of_answer};
use crate::tokens::Tokens;
use crate::way::Way;
use node_machine::Seen;
use st_core::{Kind, Serial};
use std::alloc::{AllocError, Global};

/// The knowledge after some events of a process.
#[derive(Drop)]
pub(crate) struct Walk {
    alloc: Global,
    /// The clocks after the last stamp or answer, in all readings of the events.
    clocks: Vec<u64>,
    /// The greatest count received after the last stamp or answer, which lifts the clocks.
    lift: u64,
    last: u64,
    /// Whether the last event is a receive of a token.
    takes: bool,
    tokens: Tokens,
}

impl Walk {
    fn new(alloc: Global) -> Result<Walk, AllocError>
        ensures { IfOk result (λ w. Knows w []) }
    {
        let mut clocks = Vec::new(alloc);
        clocks.push(0)?;
        let mut tokens = Tokens::new(alloc);
        tokens.note(0, 0)?;
        Ok(Walk {
            alloc,
            clocks,
            lift: 0,
            last: 0,
            takes: false,
            tokens,
        })
    }

    /// Returns the token whose put-back right before the last event, a receive, leads to the
    /// stamp.
    fn lowering(&self, stamp: Seen) -> Option<Serial>
        requires { stamp.serial.this < 2 ^ 60 }
        ensures found { (es : List SeenValue)
            → Knows self.now es
            → IfSome result (IsLowered es stamp) }
        ensures missing { (es : List SeenValue)
            → Knows self.now es
            → (t : SerialValue) → IsLowered es stamp t → IsSome result }
    {
        if !self.takes {
            return None;
        }
        if self.last != stamp.serial.prev {
            return None;
        }
        let clock = count_before(stamp.serial.this);
        if self.last == clock {
            return Some(Serial { prev: 0, this: 0 });
        }
        if self.last > clock {
            return None;
        }
        let prev = self.tokens.prev_with(clock)?;
        Some(Serial { prev, this: clock })
    }

    fn way(&self, stamp: Seen) -> Way
        requires { stamp.serial.this < 2 ^ 60 }
        ensures { (es : List SeenValue) → is_receipt stamp ≡ false
            → Knows self.now es
            → IsWay es stamp result }
    {
        if some_goes_on(&self.clocks, self.lift, self.last, stamp) {
            return Way::Plain;
        }
        let prev = stamp.serial.prev;
        let this = count_before(stamp.serial.this);
        if self.tokens.has(prev, this) {
            return Way::PutBack(Serial { prev, this });
        }
        match self.lowering(stamp) {
            Some(token) => Way::Lowered(token),
            None => Way::Ungiven,
        }
    }

    fn stamp(&mut self, stamp: Seen) -> Result<(), AllocError>
        requires { stamp.serial.this < 2 ^ 60 }
        ensures { (es : List SeenValue) → is_receipt stamp ≡ false
            → Knows self.old es
            → OnOk result (Knows self.new (es ++ stamp ∷ [])) }
    {
        let Serial { prev, this } = stamp.serial;
        self.clocks = behind_stamp(self.alloc, &self.clocks, self.lift, self.last, stamp)?;
        self.lift = 0;
        self.last = prev;
        self.takes = false;
        self.tokens.note(prev, this)?;
        self.tokens.note(prev, 0)
    }

    fn answer(&mut self, answer: Seen) -> Result<(), AllocError>
        requires { answer.serial.this < 2 ^ 60 }
        ensures { (es : List SeenValue) → is_receipt answer ≡ true → answer.answer ≡ true
            → Knows self.old es
            → OnOk result (Knows self.new (es ++ answer ∷ [])) }
    {
        let mut clocks = Vec::new(self.alloc);
        clocks.push(clock_of_answer(answer.serial.this))?;
        self.clocks = clocks;
        self.lift = 0;
        self.last = last_of_answer(answer.serial.this);
        self.takes = false;
        self.tokens.note(self.last, 0)
    }

    /// Adds a receive of a token.
    fn receive(&mut self, receive: Seen) -> Result<(), AllocError>
        requires { receive.serial.this < 2 ^ 60 }
        ensures { (es : List SeenValue) → is_receipt receive ≡ true → receive.answer ≡ false
            → Knows self.old es
            → OnOk result (Knows self.new (es ++ receive ∷ [])) }
    {
        let Serial { prev, this } = receive.serial;
        self.lift = self.lift.max(this);
        self.last = this;
        self.takes = true;
        self.tokens.note(prev, this)?;
        self.tokens.note(prev, 0)?;
        self.tokens.note(this, 0)
    }

    /// Adds an event, and returns what gives it.
    fn step(&mut self, event: Seen) -> Result<Way, AllocError>
        requires { event.serial.this < 2 ^ 60 }
        ensures known { (es : List SeenValue)
            → Knows self.old es
            → OnOk result (Knows self.new (es ++ event ∷ [])) }
        ensures way { (es : List SeenValue)
            → Knows self.old es
            → IfOk result (IsWay es event) }
    {
        match event.kind {
            Kind::Send | Kind::Print => {
                let way = self.way(event);
                self.stamp(event)?;
                Ok(way)
            }
            Kind::Receive => {
                if event.answer {
                    self.answer(event)?;
                } else {
                    self.receive(event)?;
                }
                Ok(Way::Receive)
            }
        }
    }
}

/// Finds what gives each event of one process of a standard node, in order. Each count of a serial
/// is the number from 0 to 2^60 - 1 with its bits.
///
/// In each run in which the process has these events, and reports each stamp and each receive of a
/// token, it puts back at least as many tokens as the ways name, each after the stamp before the
/// one for which it is named. If a stamp is ungiven, it puts back a token that it didn't hold.
///
/// It fails only if memory runs out.
pub fn given(alloc: Global, events: &[Seen]) -> Result<Vec<Way>, AllocError>
    requires { AreFit events.now }
    ensures each { IfOk result (λ v. length v.items ≡ length events.now) }
    ensures ways { IfOk result (λ v. (i : ℕ) (e : SeenValue) (w : WayValue)
        → slice_get events.now i ≡ Some e → slice_get v.items i ≡ Some w
        → IsWay (take i events.now) e w) }
    ensures least { IfOk result (λ v. (p : PidValue) (pids : List PidValue) (acts : List NodeAct)
        (os : List Outcome) → AreEventsOf p events.now pids acts os
        → count_by names_put_back v.items ≤ put_backs p acts) }
    ensures places { IfOk result (λ v. (i : ℕ) (w : WayValue) → slice_get v.items i ≡ Some w
        → names_put_back w ≡ true → (p : PidValue) (pids : List PidValue) (acts : List NodeAct)
        (os : List Outcome) → AreEventsOf p events.now pids acts os
        → IsMet (places p [] acts os) (take i events.now)) }
    ensures ungiven { IfOk result (λ v. (i : ℕ) → slice_get v.items i ≡ Some way.Ungiven
        → (p : PidValue) (pids : List PidValue) (acts : List NodeAct) (os : List Outcome)
        → AreEventsOf p events.now pids acts os → ¬ (PutsBackOwn p [] (zero_state pids) acts os)) }
{
    let mut walk = Walk::new(alloc)?;
    let mut ways = Vec::with_capacity(alloc, events.len())?;
    for &event in events {
        ways.push(walk.step(event)?)?;
    }
    Ok(ways)
}
