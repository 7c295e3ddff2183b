//! Checking that entries are in the log of each process that their acts touch: such entries are
//! whole.

ghost use Rattle.std.specs.Prelude.{◌≡◌, ◌<◌, length, take, true, All, Contains, slice_get};
ghost use Rattle.std.specs.Prelude.{slice_index_or, is_some, Some, IfSome, MatchOption};
ghost use Rattle.st_core.specs.Pid.{IsRising};
ghost use Rattle.st_core.specs.Step.{actor, touches};
ghost use Rattle.st_core.specs.Streams.{is_among};
ghost use Rattle.st_log.specs.declared.entry.Entry.{Entry};
ghost use Rattle.st_log.specs.Entries.{is_wide};
ghost use Rattle.st_runtime.specs.Joining.{HasAt, IsInLogOf, IsWhether};
ghost use Rattle.st_runtime.specs.Logs.{RanksRise};
ghost use Rattle.st_runtime.specs.Pieces.{pids_in, AreWhole, HasIfTouched, IsWholeEntry};
ghost use Rattle.st_runtime.specs.Pieces.{IsFirstMissing};

use crate::pcb::Pcb;
use crate::pcb::acts::receiver_of;
use st_core::{Act, Pid};
use st_log::{Entry, Log, is_same_entry, is_wide};

/// Returns the first entry, by pid and then place, that isn't whole. Asks each log about each of
/// its entries.
pub fn first_missing<const TOP: u64, const RANKS: u64>(
    processes: &[Pcb<TOP, RANKS>],
) -> Option<(Pid, usize)>
    requires { IsRising (pids_in processes.now) }
    ensures { MatchOption result (AreWhole processes.now)
        (λ r. IsFirstMissing processes.now r.0 r.1) }
{
    for (k, process) in processes.iter().enumerate() {
        if let Some(i) = missing_in(processes, process.pid(), process.log()) {
            return Some((process.pid(), i));
        }
    }
    None
}

/// Returns the least place in a process's log of an entry that isn't whole.
fn missing_in<const TOP: u64, const RANKS: u64>(
    processes: &[Pcb<TOP, RANKS>],
    here: Pid,
    log: &Log,
) -> Option<usize>
    requires rising { IsRising (pids_in processes.now) }
    requires here { All (HasAt processes.now here) log.now.entries }
    ensures { MatchOption result (All (IsWholeEntry processes.now) log.now.entries) (λ i.
        (i < length log.now.entries) × All (IsWholeEntry processes.now) (take i log.now.entries)
        × ((d : Entry) → ¬ IsWholeEntry processes.now (slice_index_or log.now.entries i d))) }
{
    for place in 0..log.len() {
        if !is_whole(processes, here, &log.at(place)) {
            return Some(place);
        }
    }
    None
}

/// Returns whether an entry of a process's log is in the logs of its actor and of each process
/// that the act touches.
fn is_whole<const TOP: u64, const RANKS: u64>(
    processes: &[Pcb<TOP, RANKS>],
    here: Pid,
    entry: &Entry,
) -> bool
    requires { IsInLogOf processes.now here entry.now }
    ensures { IsWhether result (IsWholeEntry processes.now entry.now) }
{
    is_made(processes, here, entry) && is_shared(processes, here, entry)
}

/// Returns whether an entry of a process's log is in the log of its actor.
fn is_made<const TOP: u64, const RANKS: u64>(
    processes: &[Pcb<TOP, RANKS>],
    here: Pid,
    entry: &Entry,
) -> bool
    requires { IsInLogOf processes.now here entry.now }
    ensures { IsWhether result (HasAt processes.now (actor entry.now.act) entry.now) }
{
    entry.act.actor() == here || has_at(processes, entry.act.actor(), entry)
}

/// Returns whether each process that the act touches has an entry that its actor has. An act that
/// isn't of a whole node touches only the actor and a send's receiver.
fn is_shared<const TOP: u64, const RANKS: u64>(
    processes: &[Pcb<TOP, RANKS>],
    here: Pid,
    entry: &Entry,
) -> bool
    requires held { IsInLogOf processes.now here entry.now }
    requires made { HasAt processes.now (actor entry.now.act) entry.now }
    ensures { IsWhether result (IsWholeEntry processes.now entry.now) }
{
    if is_wide(&entry.act) {
        return is_everywhere(processes, here, entry);
    }
    let receiver = receiver_of(&entry.act);
    receiver == here || has_at(processes, receiver, entry)
}

/// Returns whether each process of the actor's node has an entry of a process's log.
fn is_everywhere<const TOP: u64, const RANKS: u64>(
    processes: &[Pcb<TOP, RANKS>],
    here: Pid,
    entry: &Entry,
) -> bool
    requires wide { is_wide entry.now.act ≡ true }
    requires held { IsInLogOf processes.now here entry.now }
    ensures { IsWhether result (All (HasIfTouched entry.now) processes.now) }
{
    for process in processes {
        if !has_if_touched(process, here, entry) {
            return false;
        }
    }
    true
}

/// Returns whether a process has an entry of a whole node, unless it is on another node. The
/// process with the given pid has it.
fn has_if_touched<const TOP: u64, const RANKS: u64>(
    process: &Pcb<TOP, RANKS>,
    here: Pid,
    entry: &Entry,
) -> bool
    requires wide { is_wide entry.now.act ≡ true }
    requires here { process.now.process.pid ≡ here → Contains process.now.log entry.now }
    ensures { IsWhether result (HasIfTouched entry.now process.now) }
{
    process.pid() == here
        || !is_of_node(&entry.act, process.pid())
        || has_entry(process.log(), entry)
}

/// Returns whether an act of a whole node touches the process.
fn is_of_node(act: &Act, pid: Pid) -> bool
    requires { is_wide act.now ≡ true }
    ensures { result ≡ touches act.now pid }
{
    pid.node() == act.actor().node()
}

/// Returns whether there is a process with the pid that has the entry.
fn has_at<const TOP: u64, const RANKS: u64>(
    processes: &[Pcb<TOP, RANKS>],
    pid: Pid,
    entry: &Entry,
) -> bool
    requires { IsRising (pids_in processes.now) }
    ensures { IsWhether result (HasAt processes.now pid entry.now) }
{
    match place_in(processes, pid) {
        Some(place) => has_entry(processes[place].log(), entry),
        None => false,
    }
}

/// Returns the place of the process with the pid, if it is there.
pub fn place_in<const TOP: u64, const RANKS: u64>(
    processes: &[Pcb<TOP, RANKS>],
    pid: Pid,
) -> Option<usize>
    requires { IsRising (pids_in processes.now) }
    ensures variant { is_some result ≡ is_among (pids_in processes.now) pid }
    ensures some { IfSome result (λ i.
        (i < length processes.now) × (slice_get (pids_in processes.now) i ≡ Some pid)) }
{
    let found = processes.binary_search_by_key(
        &pid,
        |process: &Pcb<TOP, RANKS>| -> Pid
            ensures { result ≡ process.now.process.pid }
        { process.pid() },
    );
    found.ok()
}

/// Returns whether the log has the entry. Its ranks rise, so there is only one place for the
/// entry.
fn has_entry(log: &Log, entry: &Entry) -> bool
    requires { RanksRise 0 log.now.entries }
    ensures { IsWhether result (Contains log.now.entries entry.now) }
{
    match log.search(entry.rank) {
        Ok(place) => is_same_entry(&log.at(place), entry),
        Err(_) => false,
    }
}
