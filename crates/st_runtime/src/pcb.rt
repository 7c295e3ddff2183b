//! One process under its lock: its tracing state, its queue, and the log of the acts that touched
//! it. The calls here work on lent processes and take no lock.

ghost use Rattle.std.specs.Prelude.{◌≡◌, ◌≢◌, ◌<◌, ◌≤◌, false, true, [], ◌∷◌, Err, IfOk, OnOk};
ghost use Rattle.std.specs.Prelude.{IsOk};
ghost use Rattle.st_core.specs.Step.{actor};
ghost use Rattle.st_mail.specs.Actor.{is_inner, is_send_act};
ghost use Rattle.st_runtime.specs.Lent.{IsLentStep, IsNodeEntry, with_node_entry};
ghost use Rattle.st_log.specs.Entries.{last_rank};
ghost use Rattle.st_runtime.specs.Logs.{zero_process};
ghost use Rattle.st_runtime.specs.Pcb.{IsFromLog, IsSame, IsBetween, is_alone};

pub mod acts;
pub mod parts;
pub mod room;

use crate::fault::PcbFault;
use crate::pcb::parts::{reach, receive_one, send};
use crate::pcb::room::{room, room_in_both};
use st_core::{Act, Local, Message, Pid, Reply, Want};
use st_log::{Entry, Log};
use st_mail::Mailboxes;
use st_mail::actor::inner;
use std::alloc::{AllocError, Global};
use std::marker::Model;

/// The words of a cache line, 64 bytes. The padding keeps a lock and its value on different lines,
/// so that threads that try the lock don't take a line away from the thread that holds it.
const CACHE_LINE: usize = 8;

/// A process control block: one process, with the log that gives its state. `TOP` is the greatest
/// value of a clock, `RANKS` the greatest rank.
#[derive(Drop)]
pub struct Pcb<const TOP: u64, const RANKS: u64> {
    apart: [u64; CACHE_LINE],
    pid: Pid,
    local: Local<TOP>,
    queue: Mailboxes,
    log: Log,
}

impl<const TOP: u64, const RANKS: u64> Model for Pcb<TOP, RANKS> {
    ghost use Rattle.st_mail.specs.Actor.{process_of};
    ghost use Rattle.st_mail.specs.Mail.{queue_in};
    ghost use Rattle.st_runtime.specs.Inside.{IsInside};
    ghost use Rattle.st_runtime.specs.Pcb.{Control};

    ghost Value = { Control };

    ghost view = { λ a. record {
      process = process_of a.pid a.local (queue_in a.queue.boxes 0);
      log = a.log.entries;
      spare = a.log.spare;
    } };

    ghost invariant = { λ a. IsInside TOP RANKS a.pid a.local a.queue.boxes a.log.entries };
}

impl<const TOP: u64, const RANKS: u64> Pcb<TOP, RANKS> {
    /// Makes a process at the start, with an empty log. Fails if memory runs out.
    pub fn new(alloc: Global, pid: Pid) -> Result<Self, AllocError>
        ensures process { IfOk result (λ x. x.process ≡ zero_process pid) }
        ensures log { IfOk result (λ x. x.log ≡ []) }
    {
        Pcb::with_room(alloc, pid, 0)
    }

    /// Makes a process with room for `room` entries. Fails if memory runs out.
    pub(crate) fn with_room(alloc: Global, pid: Pid, room: usize) -> Result<Self, AllocError>
        ensures process { IfOk result (λ x. x.process ≡ zero_process pid) }
        ensures log { IfOk result (λ x. x.log ≡ []) }
        ensures room { IfOk result (λ x. x.spare ≡ room) }
    {
        let queue = Mailboxes::new(alloc, 1)?;
        let log = Log::with_capacity(alloc, room)?;
        Ok(Pcb {
            apart: [0; CACHE_LINE],
            pid,
            local: Local::new(),
            queue,
            log,
        })
    }

    /// Returns the pid of the process.
    pub fn pid(&self) -> Pid
        ensures { result ≡ self.now.process.pid }
    {
        self.pid
    }

    /// Returns the entries of the acts that touched the process, in order. Their ranks rise, and
    /// they give its state.
    pub fn log(&self) -> &Log
        ensures value { result.now.entries ≡ self.now.log }
        ensures kept { IsFromLog TOP RANKS self.now.process self.now.log }
    {
        &self.log
    }

    /// Returns the tracing state of the process.
    pub fn local(&self) -> &Local<TOP>
        ensures { result.now ≡ self.now.process.local }
    {
        &self.local
    }

    /// Returns the greatest rank in the log, 0 if the log is empty.
    pub fn last_rank(&self) -> u64
        ensures value { result ≡ last_rank 0 self.now.log }
        ensures within { result ≤ RANKS }
    {
        self.log.last_rank()
    }

    /// Makes room in the log for one entry. Fails if memory runs out.
    pub fn prepare(&mut self) -> Result<(), AllocError>
        ensures same { IsSame self.old self.new }
        ensures room { OnOk result (0 < self.new.spare) }
        ensures succeeds { 0 < self.old.spare → IsOk result }
    {
        self.log.reserve()
    }

    /// Releases the memory of the queue, if no message waits there.
    pub(crate) fn release_queue(&mut self, alloc: Global)
        ensures { self.new ≡ self.old }
    {
        if self.queue.len(0) > 0 {
            return;
        }
        if let Ok(empty) = Mailboxes::new(alloc, 1) {
            self.queue = empty;
        }
    }

    /// Makes an act that touches only its actor, the process. Fails with the first of `ClockFull`,
    /// `RankFull` and `Memory` that holds.
    pub fn alone(&mut self, act: &Act) -> Result<Reply, PcbFault>
        requires alone { is_alone act.now ≡ true }
        requires me { actor act.now ≡ self.old.process.pid }
        ensures step { IsLentStep TOP RANKS act.now (self.old ∷ []) (self.new ∷ []) result }
        ensures pid { self.new.process.pid ≡ self.old.process.pid }
        ensures memory { 0 < self.old.spare → is_send_act act.now ≡ false
            → result ≢ Err PcbFault.Memory }
    {
        match *act {
            Act::Send(_, _, value) => self.send_to_itself(value),
            Act::Receive(_, want) => self.receive(&want),
            Act::Print(..)
            | Act::PrintAt(..)
            | Act::Set(..)
            | Act::Clear(_)
            | Act::Restore(..)
            | Act::Look(_) => self.inner(act),
            Act::Reset(_) | Act::Tracer(..) => unreachable!(),
        }
    }

    /// Makes a send between two processes, the sender first. Fails with the first of `ClockFull`,
    /// `RankFull` and `Memory` that holds.
    pub fn between(from: &mut Self, to: &mut Self, act: &Act) -> Result<Reply, PcbFault>
        requires { IsBetween act.now from.old.process.pid to.old.process.pid }
        ensures step { IsLentStep TOP RANKS act.now
            (from.old ∷ to.old ∷ []) (from.new ∷ to.new ∷ []) result }
        ensures from_pid { from.new.process.pid ≡ from.old.process.pid }
        ensures to_pid { to.new.process.pid ≡ to.old.process.pid }
    {
        let Act::Send(_, _, value) = *act else {
            unreachable!()
        };
        Pcb::send(from, to, value)
    }

    /// Does the process's part of an act of its whole node, and appends the entry, for which
    /// `prepare` made room. The entry was made under the locks of all processes of the node.
    pub fn commit(&mut self, entry: &Entry)
        requires room { 0 < self.old.spare }
        requires entry { IsNodeEntry TOP RANKS self.old entry.now }
        ensures { self.new ≡ with_node_entry entry.now self.old }
    {
        reach(self.pid, &mut self.local, &mut self.queue, &entry.act);
        self.log.push_reserved(entry);
    }

    /// Makes an act that leaves the queue as it is.
    fn inner(&mut self, act: &Act) -> Result<Reply, PcbFault>
        requires inner { is_inner act.now ≡ true }
        requires me { actor act.now ≡ self.old.process.pid }
        ensures step { IsLentStep TOP RANKS act.now (self.old ∷ []) (self.new ∷ []) result }
        ensures pid { self.new.process.pid ≡ self.old.process.pid }
        ensures memory { 0 < self.old.spare → result ≢ Err PcbFault.Memory }
    {
        let mut local = self.local;
        let Ok(told) = inner(self.pid, &mut local, act) else {
            return Err(PcbFault::ClockFull);
        };
        let rank = room(&mut self.log, RANKS)?;
        self.local = local;
        self.log.push_reserved(&Entry {
            rank,
            act: *act,
            reply: told.reply,
            report: told.report,
            carried: None,
        });
        Ok(told.reply)
    }

    /// Makes a receive.
    fn receive(&mut self, want: &Want) -> Result<Reply, PcbFault>
        ensures step { IsLentStep TOP RANKS (Act.Receive self.old.process.pid want.now)
            (self.old ∷ []) (self.new ∷ []) result }
        ensures pid { self.new.process.pid ≡ self.old.process.pid }
        ensures memory { 0 < self.old.spare → result ≢ Err PcbFault.Memory }
    {
        let rank = room(&mut self.log, RANKS)?;
        let told = receive_one(self.pid, &mut self.local, &mut self.queue, want);
        self.log.push_reserved(&Entry {
            rank,
            act: Act::Receive(self.pid, *want),
            reply: told.reply,
            report: told.report,
            carried: None,
        });
        Ok(told.reply)
    }

    /// Makes a send of the process to itself.
    fn send_to_itself(&mut self, value: u64) -> Result<Reply, PcbFault>
        ensures step { let me = self.old.process.pid in
            IsLentStep TOP RANKS (Act.Send me me value) (self.old ∷ []) (self.new ∷ []) result }
        ensures pid { self.new.process.pid ≡ self.old.process.pid }
    {
        let me = self.pid;
        let mut local = self.local;
        let Ok(told) = send(me, &mut local, me, value) else {
            return Err(PcbFault::ClockFull);
        };
        let rank = room(&mut self.log, RANKS)?;
        let token = local.token();
        let message = Message {
            from: me,
            value,
            token,
        };
        let Ok(()) = self.queue.put(0, message) else {
            return Err(PcbFault::Memory);
        };
        self.local = local;
        self.log.push_reserved(&Entry {
            rank,
            act: Act::Send(me, me, value),
            reply: told.reply,
            report: told.report,
            carried: token,
        });
        Ok(told.reply)
    }

    /// Makes a send to another process.
    fn send(from: &mut Self, to: &mut Self, value: u64) -> Result<Reply, PcbFault>
        requires { from.old.process.pid ≢ to.old.process.pid }
        ensures step { IsLentStep TOP RANKS
            (Act.Send from.old.process.pid to.old.process.pid value)
            (from.old ∷ to.old ∷ []) (from.new ∷ to.new ∷ []) result }
        ensures from_pid { from.new.process.pid ≡ from.old.process.pid }
        ensures to_pid { to.new.process.pid ≡ to.old.process.pid }
    {
        let mut local = from.local;
        let Ok(told) = send(from.pid, &mut local, to.pid, value) else {
            return Err(PcbFault::ClockFull);
        };
        let rank = room_in_both(&mut from.log, &mut to.log, RANKS)?;
        let message = Message {
            from: from.pid,
            value,
            token: local.token(),
        };
        let Ok(()) = to.queue.put(0, message) else {
            return Err(PcbFault::Memory);
        };
        let entry = Entry {
            rank,
            act: Act::Send(from.pid, to.pid, value),
            reply: told.reply,
            report: told.report,
            carried: message.token,
        };
        from.local = local;
        from.log.push_reserved(&entry);
        to.log.push_reserved(&entry);
        Ok(told.reply)
    }
}
