//! Processes under their locks, and the acts that threads make with them. Locks are taken by
//! rising pid, and nothing is known of a lock's value but the invariant of its type.

ghost use Rattle.std.specs.Prelude.{◌≡◌, ◌≢◌, ◌≤◌, ◌↔◌, ◌⊎◌, false, true, [], ◌∷◌, ◌++◌};
ghost use Rattle.std.specs.Prelude.{length, map, is_some, slice_get, Some, None, Err};
ghost use Rattle.std.specs.Prelude.{Ok, IfOk, IfErr, IfSome, OnOk, OnErr, vec_len};
ghost use Rattle.st_core.specs.Pid.{IsRising};
ghost use Rattle.st_core.specs.Step.{actor, receiver};
ghost use Rattle.st_log.specs.Entries.{is_wide};
ghost use Rattle.st_runtime.specs.Locked.{AreFor, IsHeldStep, IsLockFault, IsWideEntry};
ghost use Rattle.st_runtime.specs.declared.fault.PcbFault.{PcbFault};
ghost use Rattle.st_runtime.specs.Pieces.{pids_in};
ghost use Rattle.st_runtime.specs.Seat.{no_calls};
ghost use Rattle.st_runtime.specs.System.{knows, is_stamping};

pub mod gate;
pub mod lock;
pub mod log_room;
pub mod node;
pub mod pids;
pub mod pieces;
pub mod seat;

use crate::fault::{ActFault, PcbFault, SystemFault};
use crate::pcb::Pcb;
use crate::pcb::acts::receiver_of;
use crate::system::gate::Gate;
use crate::system::lock::take_lock;
use crate::system::log_room::expected_entries;
use crate::system::node::Found;
use crate::system::pids::{first_on, guesses_of, place_of};
use crate::system::pieces::Pieces;
use crate::system::seat::Seat;
use st_core::{Act, Guesses, Pid, Reply, Sequence, is_rising};
use st_log::{Entry, is_wide};
use std::alloc::{AllocError, Global};
use std::marker::Model;
use std::sync::{Mutex, Wait};

/// One lock for each process. `TOP` is the greatest value of a clock, `RANKS` the greatest rank.
#[derive(Drop)]
pub struct System<const TOP: u64, const RANKS: u64> {
    pids: Vec<Pid>,
    guesses: Guesses,
    locks: Vec<Mutex<Pcb<TOP, RANKS>>>,
}

impl<const TOP: u64, const RANKS: u64> Model for System<TOP, RANKS> {
    ghost use Rattle.std.specs.Prelude.{List, ◌≡◌, vec_len};
    ghost use Rattle.st_core.specs.declared.types.Pid.{Pid};
    ghost use Rattle.st_core.specs.Pid.{IsRising};

    ghost Value = { List Pid };

    ghost view = { λ s. s.pids.items };

    ghost invariant = { λ s. (vec_len s.pids ≡ vec_len s.locks) × IsRising s.pids.items };
}

impl<const TOP: u64, const RANKS: u64> System<TOP, RANKS> {
    /// Opens a system with a process at its start for each pid, and returns it with a seat for
    /// each, in order. Fails with `NotRising` before asking for memory, then with `Memory`.
    pub fn open(alloc: Global, pids: &[Pid]) -> Result<(System<TOP, RANKS>, Vec<Seat>), SystemFault>
        ensures system { IfOk result (λ r. r.0 ≡ pids.now) }
        ensures seats { IfOk result (λ r. r.1.items ≡ map no_calls pids.now) }
        ensures rising { OnOk result (IsRising pids.now) }
        ensures memory { result ≡ Err SystemFault.Memory → IsRising pids.now }
        ensures not_rising { (result ≡ Err SystemFault.NotRising) ↔ ¬ IsRising pids.now }
    {
        let system = System::open_for(alloc, pids, &[])?;
        match fresh_seats(alloc, pids) {
            Ok(seats) => Ok((system, seats)),
            Err(_) => Err(SystemFault::Memory),
        }
    }

    /// Opens a system whose logs have room for the entries of the scripts.
    pub(crate) fn open_for(
        alloc: Global,
        pids: &[Pid],
        scripts: &[Sequence<Act>],
    ) -> Result<System<TOP, RANKS>, SystemFault>
        ensures system { IfOk result (λ s. s ≡ pids.now) }
        ensures rising { OnOk result (IsRising pids.now) }
        ensures memory { result ≡ Err SystemFault.Memory → IsRising pids.now }
        ensures not_rising { (result ≡ Err SystemFault.NotRising) ↔ ¬ IsRising pids.now }
    {
        if !is_rising(pids) {
            return Err(SystemFault::NotRising);
        }
        match open_system(alloc, pids, scripts) {
            Ok(system) => Ok(system),
            Err(_) => Err(SystemFault::Memory),
        }
    }

    /// Takes the processes out of their locks. If memory runs out, system and seats come back.
    ///
    /// In place of a process that isn't its lock's own, which no call leaves, comes a fresh one.
    pub fn gather(
        self,
        seats: Vec<Seat>,
    ) -> Result<Pieces<TOP, RANKS>, (System<TOP, RANKS>, Vec<Seat>)>
        ensures processes { IfOk result (λ p. pids_in p.processes ≡ self.entry) }
        ensures seats { IfOk result (λ p. p.seats ≡ seats.items) }
        ensures err { IfErr result (λ r. (r.0 ≡ self.entry) × (r.1.items ≡ seats.items)) }
    {
        match self.take_out() {
            Ok(processes) => Ok(Pieces::new(processes, seats)),
            Err(system) => Err((system, seats)),
        }
    }

    /// Takes the processes out of their locks. If memory runs out, the system comes back.
    pub(crate) fn take_out(self) -> Result<Vec<Pcb<TOP, RANKS>>, System<TOP, RANKS>>
        ensures processes { IfOk result (λ v. pids_in v.items ≡ self.entry) }
        ensures rising { IfOk result (λ v. IsRising (pids_in v.items)) }
        ensures err { IfErr result (λ system. system ≡ self.entry) }
    {
        let alloc = *self.pids.allocator();
        let Ok(fresh) = fresh_processes(alloc, self.pids.as_slice()) else {
            return Err(self);
        };
        let System { locks, .. } = self;
        Ok(take_processes(alloc, fresh, locks))
    }

    /// Makes the act under the locks of all processes that it touches, and keeps it in the seat
    /// with its reply. Waits for the locks.
    ///
    /// An act of a whole node takes up to two kilobytes of stack for each process of the node.
    ///
    /// Fails with the first of `NotYours`, `Unknown`, `Stray`, `ClockFull`, `RankFull` and
    /// `Memory` that holds. But room in the seat, and in the logs for an act of a whole node, is
    /// made early, so `Memory` can come in place of `Stray`, `ClockFull` and `RankFull`. After a
    /// failure no log has changed.
    pub fn act<R: Wait, G: Gate>(
        &self,
        rt: &R,
        gate: &G,
        seat: &mut Seat,
        act: &Act,
    ) -> Result<Reply, ActFault>
        ensures pid { seat.new.pid ≡ seat.old.pid }
        ensures ok { IfOk result (λ y. seat.new.mine ≡ seat.old.mine ++ (act.now, y) ∷ []) }
        ensures err { OnErr result (seat.new ≡ seat.old) }
        ensures not_yours { (result ≡ Err ActFault.NotYours) ↔ (actor act.now ≢ seat.old.pid) }
        ensures unknown { (result ≡ Err ActFault.Unknown)
            ↔ ((actor act.now ≡ seat.old.pid) × (knows self.now act.now ≡ false)) }
        ensures clock { result ≡ Err ActFault.ClockFull → is_stamping act.now ≡ true }
    {
        let places = self.places_for(seat.pid(), act)?;
        let Ok(()) = seat.mine.reserve() else {
            return Err(ActFault::Memory);
        };
        let n = seat.mine.len() as u64;
        let reply = self.act_under_locks(rt, gate, places, act, n)?;
        let _place = seat.mine.push_reserved(act, &reply);
        Ok(reply)
    }

    /// Makes act n of a process, and keeps it only in the logs.
    pub(crate) fn act_of<R: Wait, G: Gate>(
        &self,
        rt: &R,
        gate: &G,
        pid: Pid,
        act: &Act,
        n: u64,
    ) -> Result<Reply, ActFault>
        ensures not_yours { (result ≡ Err ActFault.NotYours) ↔ (actor act.now ≢ pid) }
        ensures unknown { (result ≡ Err ActFault.Unknown)
            ↔ ((actor act.now ≡ pid) × (knows self.now act.now ≡ false)) }
        ensures clock { result ≡ Err ActFault.ClockFull → is_stamping act.now ≡ true }
    {
        let places = self.places_for(pid, act)?;
        self.act_under_locks(rt, gate, places, act, n)
    }

    /// Returns the places of the actor, which has to be `pid`, and of a send's receiver.
    fn places_for(&self, pid: Pid, act: &Act) -> Result<(usize, usize), ActFault>
        ensures not_yours { (result ≡ Err ActFault.NotYours) ↔ (actor act.now ≢ pid) }
        ensures unknown { (result ≡ Err ActFault.Unknown)
            ↔ ((actor act.now ≡ pid) × (knows self.now act.now ≡ false)) }
        ensures me { IfOk result (λ r. slice_get self.now r.0 ≡ Some (actor act.now)) }
        ensures them { IfOk result (λ r. slice_get self.now r.1 ≡ Some (receiver act.now)) }
        ensures known { IfErr result (λ f. (f ≡ ActFault.NotYours) ⊎ (f ≡ ActFault.Unknown)) }
    {
        if act.actor() != pid {
            return Err(ActFault::NotYours);
        }
        match self.places(act) {
            Some(places) => Ok(places),
            None => Err(ActFault::Unknown),
        }
    }

    /// Returns the places of the actor and of a send's receiver; of any other act both are the
    /// actor's.
    fn places(&self, act: &Act) -> Option<(usize, usize)>
        ensures variant { is_some result ≡ knows self.now act.now }
        ensures me { IfSome result (λ r. slice_get self.now r.0 ≡ Some (actor act.now)) }
        ensures them { IfSome result (λ r. slice_get self.now r.1 ≡ Some (receiver act.now)) }
    {
        let (pids, from, to) = (self.pids.as_slice(), act.actor(), receiver_of(act));
        let me = place_of(&self.guesses, pids, from)?;
        let them = if to == from {
            me
        } else {
            place_of(&self.guesses, pids, to)?
        };
        Some((me, them))
    }

    /// Makes the act under the locks that it needs.
    fn act_under_locks<R: Wait, G: Gate>(
        &self,
        rt: &R,
        gate: &G,
        places: (usize, usize),
        act: &Act,
        n: u64,
    ) -> Result<Reply, ActFault>
        requires me { slice_get self.now places.0 ≡ Some (actor act.now) }
        requires them { slice_get self.now places.1 ≡ Some (receiver act.now) }
        ensures known { IsLockFault result }
        ensures clock { result ≡ Err ActFault.ClockFull → is_stamping act.now ≡ true }
    {
        let (me, them) = places;
        if is_wide(act) {
            self.whole_node(rt, gate, act, n)
        } else if receiver_of(act) == act.actor() {
            self.one(rt, gate, me, act, n)
        } else {
            self.two(rt, gate, me, them, act, n)
        }
    }

    /// Makes an act under one lock.
    fn one<R: Wait, G: Gate>(
        &self,
        rt: &R,
        gate: &G,
        place: usize,
        act: &Act,
        n: u64,
    ) -> Result<Reply, ActFault>
        requires wide { is_wide act.now ≡ false }
        requires alone { receiver act.now ≡ actor act.now }
        requires place { slice_get self.now place ≡ Some (actor act.now) }
        ensures known { IsLockFault result }
        ensures clock { result ≡ Err ActFault.ClockFull → is_stamping act.now ≡ true }
    {
        let pid = act.actor();
        let mut guard = take_lock(&self.locks[place], rt);
        gate.before(pid, n);
        let result = act_alone(&mut guard, act);
        drop(guard);
        gate.after(pid, n);
        result
    }

    /// Makes a send under two locks.
    fn two<R: Wait, G: Gate>(
        &self,
        rt: &R,
        gate: &G,
        me: usize,
        them: usize,
        act: &Act,
        n: u64,
    ) -> Result<Reply, ActFault>
        requires wide { is_wide act.now ≡ false }
        requires apart { receiver act.now ≢ actor act.now }
        requires me { slice_get self.now me ≡ Some (actor act.now) }
        requires them { slice_get self.now them ≡ Some (receiver act.now) }
        ensures known { IsLockFault result }
        ensures clock { result ≡ Err ActFault.ClockFull → is_stamping act.now ≡ true }
    {
        let pid = act.actor();
        let mut low = take_lock(&self.locks[me.min(them)], rt);
        let mut high = take_lock(&self.locks[me.max(them)], rt);
        gate.before(pid, n);
        let result = if me < them {
            act_between(&mut low, &mut high, act)
        } else {
            act_between(&mut high, &mut low, act)
        };
        drop(high);
        drop(low);
        gate.after(pid, n);
        result
    }

    /// Makes an act under all locks of the actor's node. If a log has no room, not all locks are
    /// taken, and the gate isn't told.
    fn whole_node<R: Wait, G: Gate>(
        &self,
        rt: &R,
        gate: &G,
        act: &Act,
        n: u64,
    ) -> Result<Reply, ActFault>
        requires { is_wide act.now ≡ true }
        ensures known { IsLockFault result }
        ensures clock { result ≢ Err ActFault.ClockFull }
    {
        let pid = act.actor();
        let nothing = Found {
            actor: pid,
            last: 0,
            was: None,
            stray: false,
        };
        let first = first_on(self.pids.as_slice(), pid.node());
        let mut entry = Entry {
            rank: 0,
            act: *act,
            reply: Reply::Done,
            report: None,
            carried: None,
        };
        let result = match self.from_place(rt, gate, first, nothing, &mut entry, n) {
            Ok(()) => Ok(entry.reply),
            Err(ActFault::Memory) => return Err(ActFault::Memory),
            Err(fault) => Err(fault),
        };
        gate.after(pid, n);
        result
    }

    /// Takes the locks of the node from a place on. Once all are held, it sets the rank and the
    /// reply of the act's entry, and writes the entry under each lock as it gives them back. Each
    /// call holds one lock while the next ones are taken, so the locks of a node need as many
    /// frames on the stack.
    fn from_place<R: Wait, G: Gate>(
        &self,
        rt: &R,
        gate: &G,
        place: usize,
        found: Found,
        entry: &mut Entry,
        n: u64,
    ) -> Result<(), ActFault>
        requires wide { is_wide entry.old.act ≡ true }
        requires actor { found.actor ≡ actor entry.old.act }
        requires place { place ≤ length self.now }
        requires last { found.last ≤ RANKS }
        ensures entry { OnOk result
            (IsWideEntry RANKS found.last found.was entry.old.act entry.new) }
        ensures stray { OnOk result (found.stray ≡ false) }
        ensures known { IsLockFault result }
        ensures clock { result ≢ Err ActFault.ClockFull }
    {
        if place == self.locks.len() || self.pids[place].node() != found.actor.node() {
            gate.before(found.actor, n);
            *entry = found.entry(&entry.act, RANKS)?;
            return Ok(());
        }
        let mut guard = take_lock(&self.locks[place], rt);
        let Ok(()) = guard.prepare() else {
            return Err(ActFault::Memory);
        };
        let next = found.with(&guard, self.pids[place]);
        self.from_place(rt, gate, place + 1, next, entry, n)?;
        guard.commit(entry);
        Ok(())
    }
}

/// Returns a step's result as an act's.
fn act_result(step: Result<Reply, PcbFault>) -> Result<Reply, ActFault>
    ensures ok { IfOk result (λ y. step ≡ Ok y) }
    ensures err { IfErr result (λ f. (refusal : PcbFault) × (step ≡ Err refusal)) }
    ensures stray { result ≢ Err ActFault.Stray }
    ensures known { IsLockFault result }
    ensures clock { (result ≡ Err ActFault.ClockFull) ↔ (step ≡ Err PcbFault.ClockFull) }
    ensures rank { (result ≡ Err ActFault.RankFull) ↔ (step ≡ Err PcbFault.RankFull) }
{
    match step {
        Ok(reply) => Ok(reply),
        Err(PcbFault::ClockFull) => Err(ActFault::ClockFull),
        Err(PcbFault::RankFull) => Err(ActFault::RankFull),
        Err(PcbFault::Memory) => Err(ActFault::Memory),
    }
}

/// Makes an act on the process that its lock held.
fn act_alone<const TOP: u64, const RANKS: u64>(
    pcb: &mut Pcb<TOP, RANKS>,
    act: &Act,
) -> Result<Reply, ActFault>
    requires wide { is_wide act.now ≡ false }
    requires alone { receiver act.now ≡ actor act.now }
    ensures step { IsHeldStep TOP RANKS act.now (pcb.old.process.pid ≡ actor act.now)
        (pcb.old ∷ []) (pcb.new ∷ []) result }
    ensures stray { (result ≡ Err ActFault.Stray) ↔ (pcb.old.process.pid ≢ actor act.now) }
    ensures known { IsLockFault result }
    ensures stamping { result ≡ Err ActFault.ClockFull → is_stamping act.now ≡ true }
{
    if pcb.pid() != act.actor() {
        return Err(ActFault::Stray);
    }
    act_result(pcb.alone(act))
}

/// Makes a send between the processes that two locks held.
fn act_between<const TOP: u64, const RANKS: u64>(
    from: &mut Pcb<TOP, RANKS>,
    to: &mut Pcb<TOP, RANKS>,
    act: &Act,
) -> Result<Reply, ActFault>
    requires wide { is_wide act.now ≡ false }
    requires apart { receiver act.now ≢ actor act.now }
    ensures step { IsHeldStep TOP RANKS act.now (AreFor act.now from.old to.old)
        (from.old ∷ to.old ∷ []) (from.new ∷ to.new ∷ []) result }
    ensures stray { (result ≡ Err ActFault.Stray)
        ↔ ((from.old.process.pid ≢ actor act.now) ⊎ (to.old.process.pid ≢ receiver act.now)) }
    ensures known { IsLockFault result }
{
    if from.pid() != act.actor() {
        return Err(ActFault::Stray);
    }
    if to.pid() != receiver_of(act) {
        return Err(ActFault::Stray);
    }
    act_result(Pcb::between(from, to, act))
}

/// Makes a system of rising pids, with room in the logs for the entries of the scripts.
fn open_system<const TOP: u64, const RANKS: u64>(
    alloc: Global,
    pids: &[Pid],
    scripts: &[Sequence<Act>],
) -> Result<System<TOP, RANKS>, AllocError>
    requires { IsRising pids.now }
    ensures { IfOk result (λ s. s ≡ pids.now) }
{
    let guesses = guesses_of(alloc, pids)?;
    let entries = expected_entries(alloc, pids, &guesses, scripts)?;
    let locks = fresh_locks(alloc, pids, entries.as_slice())?;
    let pids = Vec::from_slice(alloc, pids)?;
    Ok(System {
        pids,
        guesses,
        locks,
    })
}

/// Makes a lock for each pid, with a process whose log has room for the expected entries.
fn fresh_locks<const TOP: u64, const RANKS: u64>(
    alloc: Global,
    pids: &[Pid],
    entries: &[usize],
) -> Result<Vec<Mutex<Pcb<TOP, RANKS>>>, AllocError>
    requires { length entries.now ≡ length pids.now }
    ensures { IfOk result (λ locks. vec_len locks ≡ length pids.now) }
{
    let mut locks = Vec::with_capacity(alloc, pids.len())?;
    for (i, pid) in pids.iter().enumerate() {
        let process = Pcb::with_room(alloc, *pid, entries[i])?;
        locks.push_reserved(Mutex::new(process));
    }
    Ok(locks)
}

/// Makes a seat for each pid.
fn fresh_seats(alloc: Global, pids: &[Pid]) -> Result<Vec<Seat>, AllocError>
    ensures { IfOk result (λ seats. seats.items ≡ map no_calls pids.now) }
{
    let mut seats = Vec::with_capacity(alloc, pids.len())?;
    for pid in pids {
        seats.push_reserved(Seat::new(alloc, *pid)?);
    }
    Ok(seats)
}

/// Makes a process at the start for each pid.
fn fresh_processes<const TOP: u64, const RANKS: u64>(
    alloc: Global,
    pids: &[Pid],
) -> Result<Vec<Pcb<TOP, RANKS>>, AllocError>
    ensures { IfOk result (λ v. pids_in v.items ≡ pids.now) }
{
    let mut all = Vec::with_capacity(alloc, pids.len())?;
    for pid in pids {
        all.push_reserved(Pcb::new(alloc, *pid)?);
    }
    Ok(all)
}

/// Puts each process that is its lock's own in the place of the fresh one. Releases empty queues,
/// since only the logs are read from now on.
fn take_processes<const TOP: u64, const RANKS: u64>(
    alloc: Global,
    mut all: Vec<Pcb<TOP, RANKS>>,
    locks: Vec<Mutex<Pcb<TOP, RANKS>>>,
) -> Vec<Pcb<TOP, RANKS>>
    requires { vec_len all ≡ vec_len locks }
    ensures { pids_in result.items ≡ pids_in all.entry.items }
{
    for (i, lock) in locks.into_iter().enumerate() {
        let mut process = lock.into_inner();
        process.release_queue(alloc);
        put_in_place(&mut all, i, process);
    }
    all
}

/// Puts the process in the place of the one there, if both have one pid.
fn put_in_place<const TOP: u64, const RANKS: u64>(
    all: &mut [Pcb<TOP, RANKS>],
    place: usize,
    process: Pcb<TOP, RANKS>,
)
    ensures { pids_in all.new ≡ pids_in all.old }
{
    if place < all.len() && process.pid() == all[place].pid() {
        all[place] = process;
    }
}
