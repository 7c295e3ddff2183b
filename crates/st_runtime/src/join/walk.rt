//! One walk over the acts by rank, with a cursor in each log. An act has to be the next entry at
//! its actor and at each other process that it touches, and at the end all cursors are at their
//! ends. So each log has exactly the acts that touch its process, in one order.

ghost use Rattle.std.specs.Prelude.{◌≡◌, ◌<◌, ◌≤◌, ◌∷◌, [], drop, length, map, true, false, All};
ghost use Rattle.std.specs.Prelude.{IfOk};
ghost use Rattle.std.specs.Prelude.{IfSome, IsTrue, OnOk, slice_get, Some};
ghost use Rattle.st_core.specs.Pid.{node_of, IsRising};
ghost use Rattle.st_core.specs.Step.{actor};
ghost use Rattle.st_log.specs.declared.entry.Entry.{Entry};
ghost use Rattle.st_log.specs.Entries.{entry_at, is_wide};
ghost use Rattle.st_runtime.specs.Joining.{referred, IsThere};
ghost use Rattle.st_runtime.specs.Pcb.{IsFromLog};
ghost use Rattle.st_runtime.specs.Pieces.{pids_in};
ghost use Rattle.st_runtime.specs.System.{knows};
ghost use Rattle.st_runtime.specs.Walk.{start, pids_along, AreLower, AreStepped, IsKeyBefore};
ghost use Rattle.st_runtime.specs.Walk.{IsWalk};
ghost use Rattle.st_runtime.specs.Walk.{IsNextAt, MovesPast, MovesPastAt};

use crate::pcb::Pcb;
use crate::pcb::acts::receiver_of;
use crate::system::pids::{first_on, guesses_of, place_of};
use st_core::{Guesses, Pid};
use st_log::Log;
use std::alloc::{AllocError, Global};
use std::marker::Model;

/// An entry that is referred to: its log, and its place there.
pub type Reference<'a> = (&'a Log, usize);

/// A cursor in the log of a process: it has passed the entries before it.
#[derive(Drop)]
pub struct Cursor<'a> {
    pid: Pid,
    log: &'a Log,
    next: usize,
}

impl<'a> Model for Cursor<'a> {
    ghost use Rattle.std.specs.Prelude.{◌≤◌, drop, length, take};
    ghost use Rattle.st_runtime.specs.Walk.{Along};

    ghost Value = { Along };

    ghost view = { λ c. record {
      pid = c.pid;
      passed = take c.next c.log.now.entries;
      left = drop c.next c.log.now.entries;
    } };

    ghost invariant = { λ c. c.next ≤ length c.log.now.entries };
}

impl<'a> Cursor<'a> {
    /// Returns the next entry, if one is left.
    fn entry(&self) -> Option<Reference<'a>>
        ensures there { IfSome result IsThere }
        ensures next { IfSome result (λ r. self.now.left ≡ referred r ∷ drop 1 self.now.left) }
    {
        if self.next < self.log.len() {
            Some((self.log, self.next))
        } else {
            None
        }
    }

    /// Returns whether no entry is left.
    fn is_at_end(&self) -> bool
        ensures { IsTrue result → self.now.left ≡ [] }
    {
        self.next >= self.log.len()
    }

    /// Passes the next entry, whatever it is.
    fn advance(&mut self)
        ensures { (e : Entry) → self.old.left ≡ e ∷ drop 1 self.old.left
            → MovesPast e self.old self.new }
    {
        if self.next < self.log.len() {
            self.next += 1;
        }
    }

    /// Passes the next entry, if it is equal to the entry at `place` of `log`, and returns whether
    /// it did.
    fn pass(&mut self, log: &Log, place: usize) -> bool
        requires { place < length log.now.entries }
        ensures { IsTrue result → MovesPast (entry_at log.now.entries place) self.old self.new }
    {
        if self.next >= self.log.len() || !self.log.is_seen_same(self.next, log, place) {
            return false;
        }
        self.next += 1;
        true
    }
}

/// Returns the entries of all logs, each once and by rank and then actor, if the turns lead
/// through all logs.
pub fn walk<'a, const TOP: u64, const RANKS: u64>(
    alloc: Global,
    processes: &'a [Pcb<TOP, RANKS>],
    turns: &[u32],
) -> Result<Option<Vec<Reference<'a>>>, AllocError>
    requires { IsRising (pids_in processes.now) }
    ensures walk { IfOk result (λ o. IfSome o (λ v. IsWalk processes.now (map referred v.items))) }
    ensures there { IfOk result (λ o. IfSome o (λ v. All IsThere v.items)) }
    ensures kept { OnOk result (All (λ x. IsFromLog TOP RANKS x.process x.log) processes.now) }
{
    let mut cursors = cursors_of(alloc, processes)?;
    let pids = pids_of(alloc, processes)?;
    let guesses = guesses_of(alloc, pids.as_slice())?;
    let mut entries = Vec::with_capacity(alloc, turns.len())?;
    let mut last = (0, Pid::on(0, 0));
    for turn in turns {
        let Some(entry) = pass_turn(&mut cursors, &pids, &guesses, *turn as usize) else {
            return Ok(None);
        };
        let next = key_of(&entry);
        if !is_before(last, next) {
            return Ok(None);
        }
        last = next;
        entries.push_reserved(entry);
    }
    if !are_at_ends(&cursors) {
        return Ok(None);
    }
    Ok(Some(entries))
}

/// Makes a cursor at the beginning of each log.
fn cursors_of<'a, const TOP: u64, const RANKS: u64>(
    alloc: Global,
    processes: &'a [Pcb<TOP, RANKS>],
) -> Result<Vec<Cursor<'a>>, AllocError>
    ensures cursors { IfOk result (λ v. v.items ≡ map start processes.now) }
    ensures kept { OnOk result (All (λ x. IsFromLog TOP RANKS x.process x.log) processes.now) }
{
    let mut cursors = Vec::with_capacity(alloc, processes.len())?;
    for process in processes {
        cursors.push_reserved(Cursor {
            pid: process.pid(),
            log: process.log(),
            next: 0,
        });
    }
    Ok(cursors)
}

/// Returns the pids of the processes.
pub fn pids_of<const TOP: u64, const RANKS: u64>(
    alloc: Global,
    processes: &[Pcb<TOP, RANKS>],
) -> Result<Vec<Pid>, AllocError>
    ensures { IfOk result (λ v. v.items ≡ pids_in processes.now) }
{
    let mut pids = Vec::with_capacity(alloc, processes.len())?;
    for process in processes {
        pids.push_reserved(process.pid());
    }
    Ok(pids)
}

/// Returns the rank and the actor of an entry.
fn key_of(reference: &Reference<'_>) -> (u64, Pid)
    requires { IsThere reference.now }
    ensures rank { result.0 ≡ (referred reference.now).rank }
    ensures actor { result.1 ≡ actor (referred reference.now).act }
{
    let (log, place) = *reference;
    (log.rank_at(place), log.actor_at(place))
}

/// Returns whether the first key comes before the second: by rank, then by actor.
fn is_before(first: (u64, Pid), second: (u64, Pid)) -> bool
    ensures { IsTrue result → IsKeyBefore first.0 first.1 second.0 second.1 }
{
    first.0 < second.0 || (first.0 == second.0 && first.1 < second.1)
}

/// Passes the next entry of the process whose turn it is, which has to be its own, at the cursors
/// of all processes that the act touches.
fn pass_turn<'a>(
    cursors: &mut [Cursor<'a>],
    pids: &[Pid],
    guesses: &Guesses,
    me: usize,
) -> Option<Reference<'a>>
    requires rising { IsRising pids.now }
    requires pids { pids_along cursors.old ≡ pids.now }
    ensures there { IfSome result IsThere }
    ensures known { IfSome result (λ r. knows pids.now (referred r).act ≡ true) }
    ensures stepped { IfSome result (λ r. AreStepped (referred r) cursors.old cursors.new) }
{
    if me >= cursors.len() {
        return None;
    }
    let entry = cursors[me].entry()?;
    let (log, place) = entry;
    if log.actor_at(place) != pids[me] {
        return None;
    }
    if !pass_all(cursors, pids, guesses, me, log, place) {
        return None;
    }
    Some(entry)
}

/// Passes an entry at the cursors of all processes that it touches.
fn pass_all(
    cursors: &mut [Cursor<'_>],
    pids: &[Pid],
    guesses: &Guesses,
    me: usize,
    log: &Log,
    place: usize,
) -> bool
    requires rising { IsRising pids.now }
    requires pids { pids_along cursors.old ≡ pids.now }
    requires place { place < length log.now.entries }
    requires me { slice_get pids.now me ≡ Some (actor (entry_at log.now.entries place).act) }
    requires next { IsNextAt (entry_at log.now.entries place) me cursors.old }
    ensures known { IsTrue result
        → knows pids.now (entry_at log.now.entries place).act ≡ true }
    ensures stepped { IsTrue result
        → AreStepped (entry_at log.now.entries place) cursors.old cursors.new }
{
    if log.is_wide_at(place) {
        pass_node(cursors, pids, pids[me].node(), log, place)
    } else {
        pass_two(cursors, pids, guesses, me, log, place)
    }
}

/// Passes an act of a node at the cursors of all processes of the node.
fn pass_node(cursors: &mut [Cursor<'_>], pids: &[Pid], node: u16, log: &Log, place: usize) -> bool
    requires rising { IsRising pids.now }
    requires pids { pids_along cursors.old ≡ pids.now }
    requires place { place < length log.now.entries }
    requires wide { is_wide (entry_at log.now.entries place).act ≡ true }
    requires node { node ≡ node_of (actor (entry_at log.now.entries place).act) }
    ensures { IsTrue result
        → AreStepped (entry_at log.now.entries place) cursors.old cursors.new }
{
    let first = first_on(pids, node);
    if !are_lower(pids, first, node) {
        return false;
    }
    for at in first..cursors.len() {
        if pids[at].node() != node {
            return pids[at].node() > node;
        }
        if !cursors[at].pass(log, place) {
            return false;
        }
    }
    true
}

/// Returns whether the pids before a place are on lower nodes, by the last of them.
fn are_lower(pids: &[Pid], first: usize, node: u16) -> bool
    requires rising { IsRising pids.now }
    requires first { first ≤ length pids.now }
    ensures { IsTrue result → AreLower node pids.now first }
{
    match first.checked_sub(1) {
        Some(last) => pids[last].node() < node,
        None => true,
    }
}

/// Passes an act that isn't of a whole node at the cursors of its actor, at which it is next, and
/// of a send's receiver.
fn pass_two(
    cursors: &mut [Cursor<'_>],
    pids: &[Pid],
    guesses: &Guesses,
    me: usize,
    log: &Log,
    place: usize,
) -> bool
    requires rising { IsRising pids.now }
    requires pids { pids_along cursors.old ≡ pids.now }
    requires place { place < length log.now.entries }
    requires narrow { is_wide (entry_at log.now.entries place).act ≡ false }
    requires me { slice_get pids.now me ≡ Some (actor (entry_at log.now.entries place).act) }
    requires next { IsNextAt (entry_at log.now.entries place) me cursors.old }
    ensures known { IsTrue result
        → knows pids.now (entry_at log.now.entries place).act ≡ true }
    ensures stepped { IsTrue result
        → AreStepped (entry_at log.now.entries place) cursors.old cursors.new }
{
    let to = receiver_of(&log.act_at(place));
    advance_at(cursors, me);
    if to == pids[me] {
        return true;
    }
    match place_of(guesses, pids, to) {
        Some(them) => pass_at(cursors, them, log, place),
        None => false,
    }
}

/// Passes an entry at the cursor of one process, if it is next there.
fn pass_at(cursors: &mut [Cursor<'_>], at: usize, log: &Log, place: usize) -> bool
    requires at { at < length cursors.old }
    requires place { place < length log.now.entries }
    ensures { IsTrue result
        → MovesPastAt (entry_at log.now.entries place) at cursors.old cursors.new }
{
    cursors[at].pass(log, place)
}

/// Passes the next entry at the cursor of one process.
fn advance_at(cursors: &mut [Cursor<'_>], at: usize)
    requires { at < length cursors.old }
    ensures { (e : Entry) → IsNextAt e at cursors.old → MovesPastAt e at cursors.old cursors.new }
{
    cursors[at].advance();
}

/// Returns whether all cursors are at their ends.
fn are_at_ends(cursors: &[Cursor<'_>]) -> bool
    ensures { IsTrue result → All (λ c. c.left ≡ []) cursors.now }
{
    for cursor in cursors {
        if !cursor.is_at_end() {
            return false;
        }
    }
    true
}
