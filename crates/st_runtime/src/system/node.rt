//! The findings of an act of a whole node under the locks that it takes, one after the other.

ghost use Rattle.std.specs.Prelude.{◌≡◌, ◌≢◌, ◌+◌, ◌≤◌, ◌↔◌, ◌⊎◌, true, false, max, Some, None};
ghost use Rattle.std.specs.Prelude.{Err, IfOk, IfSome, IsSome};
ghost use Rattle.st_runtime.specs.Locked.{IsLockFault, IsWideEntry};
ghost use Rattle.st_log.specs.Entries.{is_wide, last_rank};

use crate::fault::ActFault;
use crate::pcb::Pcb;
use crate::pcb::acts::wide_reply;
use st_core::{Act, Pid};
use st_log::Entry;

/// The findings under the locks so far.
#[derive(Clone, Copy)]
pub struct Found {
    /// The pid of the actor.
    pub actor: Pid,
    /// The greatest rank in the logs so far.
    pub last: u64,
    /// Whether the actor was traced; none before its lock is held.
    pub was: Option<bool>,
    /// Whether one of the locks held another process than its own.
    pub stray: bool,
}

impl Found {
    /// Adds the finding under the lock of `pid`.
    pub fn with<const TOP: u64, const RANKS: u64>(self, pcb: &Pcb<TOP, RANKS>, pid: Pid) -> Found
        ensures actor { result.actor ≡ self.actor }
        ensures last { result.last ≡ max self.last (last_rank 0 pcb.now.log) }
        ensures within { self.last ≤ RANKS → result.last ≤ RANKS }
        ensures pid { result.stray ≡ false → pcb.now.process.pid ≡ pid }
        ensures here { pcb.now.process.pid ≡ self.actor
            → result.stray ≡ false → result.was ≡ Some pcb.now.process.local.traced }
        ensures before { IfSome self.was (λ was. result.stray ≡ false → result.was ≡ Some was) }
        ensures stray { result.stray ≡ false → self.stray ≡ false }
    {
        let here = pcb.pid() == self.actor;
        Found {
            actor: self.actor,
            last: self.last.max(pcb.last_rank()),
            was: if here {
                Some(pcb.local().traced())
            } else {
                self.was
            },
            stray: self.stray || pcb.pid() != pid || (here && self.was.is_some()),
        }
    }

    /// Makes the entry of the act, once all locks are held. Fails with `Stray`, or else with
    /// `RankFull`.
    pub fn entry(&self, act: &Act, ranks: u64) -> Result<Entry, ActFault>
        requires wide { is_wide act.now ≡ true }
        requires last { self.now.last ≤ ranks }
        ensures entry { IfOk result (IsWideEntry ranks self.now.last self.now.was act.now) }
        ensures rank { IfOk result (λ e. e.rank ≡ self.now.last + 1) }
        ensures stray { (result ≡ Err ActFault.Stray)
            ↔ ((self.now.stray ≡ true) ⊎ (self.now.was ≡ None)) }
        ensures full { (result ≡ Err ActFault.RankFull)
            ↔ ((self.now.stray ≡ false) × IsSome self.now.was × (self.now.last ≡ ranks)) }
        ensures memory { result ≢ Err ActFault.Memory }
        ensures known { IsLockFault result }
        ensures clock { result ≢ Err ActFault.ClockFull }
    {
        if self.stray {
            return Err(ActFault::Stray);
        }
        let Some(was) = self.was else {
            return Err(ActFault::Stray);
        };
        if self.last == ranks {
            return Err(ActFault::RankFull);
        }
        Ok(Entry {
            rank: self.last + 1,
            act: *act,
            reply: wide_reply(act, was),
            report: None,
            carried: None,
        })
    }
}
