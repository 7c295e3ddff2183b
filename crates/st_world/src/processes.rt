//! The processes of a world, and their step. Each call looks processes up by pid, and passes their
//! numbers to functions on one process or one node.

ghost use Rattle.std.specs.Prelude.{◌≡◌, true, option_map, IfErr, IfOk, IfSome, OnOk};
ghost use Rattle.st_core.specs.Pid.{IsRising};
ghost use Rattle.st_core.specs.State.{process, zero_state};
ghost use Rattle.st_core.specs.Step.{actor};
ghost use Rattle.st_arena.specs.Calls.{PassesOnce};
ghost use Rattle.st_mail.specs.Actor.{is_inner};
ghost use Rattle.st_mail.specs.Mail.{bears_stamp};
ghost use Rattle.st_world.specs.World.{place_in, token_of, AreOrdered, AreStamped, IsNewFault};
ghost use Rattle.st_world.specs.World.{IsStep};

use crate::nodes::Nodes;
use crate::numbers::Numbers;
use crate::outcome::{NewFault, StepFault};
use crate::rows::zeros;
use st_core::{Act, Kind, Local, Message, Pid, Reply, Token, Want, is_rising};
use st_mail::actor::{answer, event, inner, receive, stamp};
use st_mail::{Mailboxes, Outcome};
use std::alloc::Global;
use std::marker::Model;

/// All processes of the machine, in any state that acts can leave.
#[derive(Drop)]
pub(crate) struct Processes<const TOP: u64> {
    pids: Numbers,

    // The tracing states. The node of a process says whether it is traced, and not the mark here.
    locals: Vec<Local<TOP>>,
    queues: Mailboxes,
    nodes: Nodes,
}

impl<const TOP: u64> Model for Processes<TOP> {
    ghost use Rattle.st_core.specs.State.{State};
    ghost use Rattle.st_world.specs.Nodes.{are_traced, flagged};
    ghost use Rattle.st_world.specs.Rows.{state_of, AreKept};

    ghost Value = { State };

    ghost view = { λ a.
        state_of a.pids (flagged (are_traced a.nodes) a.locals.items) a.queues.boxes };

    ghost invariant = { λ a. AreKept TOP a.pids a.nodes a.locals.items a.queues.boxes };
}

impl<const TOP: u64> Processes<TOP> {
    /// Makes the processes in their zero state. Fails if the pids don't rise strictly or memory
    /// runs out.
    pub fn new(alloc: Global, pids: &[Pid]) -> Result<Processes<TOP>, NewFault>
        ensures zero { IfOk result (λ w. w ≡ zero_state pids.now) }
        ensures rising { OnOk result (IsRising pids.now) }
        ensures fault { IfErr result (IsNewFault pids.now) }
    {
        if !is_rising(pids) {
            return Err(NewFault::NotRising);
        }
        let Ok(numbers) = Numbers::of(alloc, pids) else {
            return Err(NewFault::Memory);
        };
        let Ok(locals) = zeros(alloc, pids.len()) else {
            return Err(NewFault::Memory);
        };
        let Ok(queues) = Mailboxes::new(alloc, pids.len()) else {
            return Err(NewFault::Memory);
        };
        let Ok(nodes) = Nodes::new(alloc, pids) else {
            return Err(NewFault::Memory);
        };
        Ok(Processes {
            pids: numbers,
            locals,
            queues,
            nodes,
        })
    }

    /// Returns the tracing state of the process.
    pub fn local(&self, pid: Pid) -> Option<Local<TOP>>
        ensures { result ≡ option_map (λ r. r.local) (process self.now pid) }
    {
        let Some(number) = self.pids.number_of(pid) else {
            return None;
        };
        let mut local = self.locals[number];
        let _was = local.trace(self.nodes.is_traced(number));
        Some(local)
    }

    /// Returns the token of the process.
    pub fn token(&self, pid: Pid) -> Option<Token>
        ensures { result ≡ token_of self.now pid }
    {
        let Some(number) = self.pids.number_of(pid) else {
            return None;
        };
        self.locals[number].token()
    }

    /// Returns the clock of the process.
    pub fn clock(&self, pid: Pid) -> Option<u64>
        ensures value { result ≡ option_map (λ r. r.local.clock) (process self.now pid) }
        ensures ordered { IfSome (process self.now pid) (λ r. AreOrdered TOP r.local) }
    {
        let Some(number) = self.pids.number_of(pid) else {
            return None;
        };
        Some(self.locals[number].clock())
    }

    /// Returns the last count of the process.
    pub fn last(&self, pid: Pid) -> Option<u64>
        ensures value { result ≡ option_map (λ r. r.local.last) (process self.now pid) }
        ensures ordered { IfSome (process self.now pid) (λ r. AreOrdered TOP r.local) }
    {
        let Some(number) = self.pids.number_of(pid) else {
            return None;
        };
        Some(self.locals[number].last())
    }

    /// Returns the least place of the process's queue whose message's token has the from `from`
    /// and the own count `this`.
    pub fn place_of(&self, pid: Pid, from: Pid, this: u64) -> Option<u64>
        ensures value { result ≡ place_in self.now pid from this }
        ensures stamped { IfSome (process self.now pid) (λ r. AreStamped TOP r.queue) }
    {
        let Some(number) = self.pids.number_of(pid) else {
            return None;
        };
        self.queues.place_of(number, from, this)
    }

    /// Returns what `place_of` does, if no two messages of the queue have the stamp. It searches a
    /// long queue from both ends at once.
    pub fn place_of_one(&self, pid: Pid, from: Pid, this: u64) -> Option<u64>
        requires one { IfSome (process self.now pid) (λ r.
            PassesOnce (λ m. bears_stamp from this m.token) r.queue) }
        ensures value { result ≡ place_in self.now pid from this }
        ensures stamped { IfSome (process self.now pid) (λ r. AreStamped TOP r.queue) }
    {
        let Some(number) = self.pids.number_of(pid) else {
            return None;
        };
        self.queues.place_of_one(number, from, this)
    }

    /// Makes the act, by its kind.
    pub fn step(&mut self, act: &Act) -> Result<Outcome, StepFault>
        ensures { IsStep TOP self.old act.now result self.new }
    {
        match *act {
            Act::Send(me, to, value) => self.send(me, to, value),
            Act::Receive(me, want) => self.receive(me, &want),
            Act::Reset(me) => self.reset(me),
            Act::Tracer(me, on) => self.trace(me, on),
            Act::Print(me, _)
            | Act::PrintAt(me, _, _)
            | Act::Set(me, _)
            | Act::Clear(me)
            | Act::Restore(me, _)
            | Act::Look(me) => self.inner(me, act),
        }
    }

    /// Makes an act that touches only its actor, and no queue.
    fn inner(&mut self, me: Pid, act: &Act) -> Result<Outcome, StepFault>
        requires inner { is_inner act.now ≡ true }
        requires me { actor act.now ≡ me }
        ensures { IsStep TOP self.old act.now result self.new }
    {
        let Some(number) = self.pids.number_of(me) else {
            return Err(StepFault::Unknown);
        };
        self.nodes.ready(number, &mut self.locals[number]);
        let Ok(outcome) = inner(me, &mut self.locals[number], act) else {
            return Err(StepFault::ClockFull);
        };
        Ok(outcome)
    }

    fn receive(&mut self, me: Pid, want: &Want) -> Result<Outcome, StepFault>
        ensures { IsStep TOP self.old (Act.Receive me want.now) result self.new }
    {
        let Some(number) = self.pids.number_of(me) else {
            return Err(StepFault::Unknown);
        };
        self.nodes.ready(number, &mut self.locals[number]);
        Ok(receive(me, &mut self.locals[number], &mut self.queues, number, want))
    }

    /// Sends a message with the stamped token. Memory is asked for before the actor's token and
    /// clock change.
    fn send(&mut self, me: Pid, to: Pid, value: u64) -> Result<Outcome, StepFault>
        ensures { IsStep TOP self.old (Act.Send me to value) result self.new }
    {
        let Some(from_number) = self.pids.number_of(me) else {
            return Err(StepFault::Unknown);
        };
        let Some(to_number) = self.pids.number_of(to) else {
            return Err(StepFault::Unknown);
        };
        self.nodes.ready(from_number, &mut self.locals[from_number]);
        self.nodes.touch(to_number);
        let Ok(local) = stamp(me, &self.locals[from_number]) else {
            return Err(StepFault::ClockFull);
        };
        let token = local.token();
        let message = Message {
            from: me,
            value,
            token,
        };
        let Ok(()) = self.queues.put(to_number, message) else {
            return Err(StepFault::Memory);
        };
        self.locals[from_number] = local;
        Ok(Outcome {
            reply: Reply::Done,
            report: event(local.traced(), Kind::Send, token, Some(to), value),
            place: None,
        })
    }

    /// Resets the node of `me`.
    fn reset(&mut self, me: Pid) -> Result<Outcome, StepFault>
        ensures { IsStep TOP self.old (Act.Reset me) result self.new }
    {
        let Some(number) = self.pids.number_of(me) else {
            return Err(StepFault::Unknown);
        };
        self.nodes.wipe(number, &mut self.locals, &mut self.queues);
        self.nodes.clear(number);
        Ok(answer(Reply::Done))
    }

    /// Turns tracing of the node of `me` on or off.
    fn trace(&mut self, me: Pid, on: bool) -> Result<Outcome, StepFault>
        ensures { IsStep TOP self.old (Act.Tracer me on) result self.new }
    {
        let Some(number) = self.pids.number_of(me) else {
            return Err(StepFault::Unknown);
        };
        let was = self.nodes.trace(number, on);
        Ok(answer(Reply::Was(was)))
    }
}
