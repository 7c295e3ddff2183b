//! The world: the processes, and whether no reset was asked for. The public calls are here.

ghost use Rattle.std.specs.Prelude.{◌≡◌, ◌⊎◌, true, option_map, IfErr, IfOk, IfSome, OnErr, OnOk};
ghost use Rattle.st_core.specs.Pid.{IsRising};
ghost use Rattle.st_core.specs.State.{process, zero_state};
ghost use Rattle.st_core.specs.Step.{step};
ghost use Rattle.st_mail.specs.Actor.{is_send_act};
ghost use Rattle.st_world.specs.World.{outcome_to, place_in, token_of, AreOrdered, AreStamped};
ghost use Rattle.st_world.specs.World.{IsFault, IsNewFault, Rises};

use crate::outcome::{NewFault, StepFault};
use crate::processes::Processes;
use st_core::{Act, Local, Pid, Token};
use st_mail::Outcome;
use std::alloc::Global;
use std::marker::Model;

/// All processes of the machine. `TOP` is the greatest value of a clock.
///
/// Tokens and clocks follow the manual page of `seq_trace`. Where it is silent, this project's own
/// profile decides: for example, a message arrives with its send, a reset reaches the actor's
/// node, and an act can be refused.
#[derive(Drop)]
pub struct World<const TOP: u64> {
    processes: Processes<TOP>,

    // Whether no reset was asked for yet. Until then no stamp occurs twice in a queue, so a search
    // for a stamp may begin at either end.
    one_trace: bool,
}

impl<const TOP: u64> Model for World<TOP> {
    ghost use Rattle.std.specs.Prelude.{◌≡◌, true};
    ghost use Rattle.st_core.specs.Laws.{HasStampsOnce};
    ghost use Rattle.st_core.specs.State.{State};

    ghost Value = { State };

    ghost view = { λ w. w.processes };

    ghost invariant = { λ w. w.one_trace ≡ true → HasStampsOnce w.processes };
}

impl<const TOP: u64> World<TOP> {
    /// Makes a world of the processes `pids`, without tokens or a tracer, with counts of 0 and
    /// empty queues. Fails if the pids don't rise strictly, which is checked first, or if memory
    /// runs out.
    pub fn new(alloc: Global, pids: &[Pid]) -> Result<World<TOP>, NewFault>
        ensures zero { IfOk result (λ w. w ≡ zero_state pids.now) }
        ensures rising { OnOk result (IsRising pids.now) }
        ensures fault { IfErr result (IsNewFault pids.now) }
    {
        let processes = Processes::new(alloc, pids)?;
        Ok(World {
            processes,
            one_trace: true,
        })
    }

    /// Returns the tracing state of the process: its token, its clock, its last count and whether
    /// it is traced. None if the process is unknown.
    pub fn local(&self, pid: Pid) -> Option<Local<TOP>>
        ensures { result ≡ option_map (λ r. r.local) (process self.now pid) }
    {
        self.processes.local(pid)
    }

    /// Returns the token of the process. None if the process has no token or is unknown.
    pub fn token(&self, pid: Pid) -> Option<Token>
        ensures { result ≡ token_of self.now pid }
    {
        self.processes.token(pid)
    }

    /// Returns the clock of the process, which is never below its last count nor above `TOP`. None
    /// if the process is unknown.
    pub fn clock(&self, pid: Pid) -> Option<u64>
        ensures value { result ≡ option_map (λ r. r.local.clock) (process self.now pid) }
        ensures ordered { IfSome (process self.now pid) (λ r. AreOrdered TOP r.local) }
    {
        self.processes.clock(pid)
    }

    /// Returns the last count of the process: that of the last message with a token that it
    /// received, or its clock when a new trace began after that. It is never above the clock. None
    /// if the process is unknown.
    pub fn last(&self, pid: Pid) -> Option<u64>
        ensures value { result ≡ option_map (λ r. r.local.last) (process self.now pid) }
        ensures ordered { IfSome (process self.now pid) (λ r. AreOrdered TOP r.local) }
    {
        self.processes.last(pid)
    }

    /// Returns the least place of the process's queue whose message's token has the from `from`
    /// and the own count `this`. Such a message is from the process that stamped its token. None
    /// if there is none, or if the process is unknown. Until a reset is asked for, a queue of more
    /// than 512 messages is searched from both ends at once.
    pub fn place_of(&self, pid: Pid, from: Pid, this: u64) -> Option<u64>
        ensures value { result ≡ place_in self.now pid from this }
        ensures stamped { IfSome (process self.now pid) (λ r. AreStamped TOP r.queue) }
    {
        if self.one_trace {
            self.processes.place_of_one(pid, from, this)
        } else {
            self.processes.place_of(pid, from, this)
        }
    }

    /// Makes one act. It is refused if its actor or a send's receiver is unknown, next if a clock
    /// at `TOP` can't stamp, and last if memory for a send's message runs out. A refused act
    /// leaves the world as it was. Room for messages is no part of the state that a contract sees.
    /// A receive that walks far, or a send to a queue with an index, may also ask for memory, for
    /// an index or for the ladder of a long list, and does without if there is none.
    pub fn step(&mut self, act: &Act) -> Result<Outcome, StepFault>
        ensures step { IfOk result
            (λ told. step TOP self.old act.now ≡ Some (outcome_to told self.new)) }
        ensures rises { IfOk result (λ told. IfSome told.report Rises) }

        ensures err { OnErr result (self.new ≡ self.old) }
        ensures fault { IfErr result (IsFault TOP self.old act.now) }
        ensures no_step { IfErr result (λ fault.
            (fault ≡ StepFault.Memory) ⊎ (step TOP self.old act.now ≡ None)) }
        ensures memory { result ≡ Err StepFault.Memory → is_send_act act.now ≡ true }
    {
        let outcome = self.processes.step(act);
        if let Act::Reset(_) = *act {
            self.one_trace = false;
        }
        outcome
    }
}
