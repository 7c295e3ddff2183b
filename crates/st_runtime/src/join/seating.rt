//! Checking that each process has the one seat that its log tells of.

ghost use Rattle.std.specs.Prelude.{◌≡◌, ◌↔◌, [], ◌∷◌, IsTrue, MatchOption};
ghost use Rattle.st_core.specs.Pid.{IsRising};
ghost use Rattle.st_runtime.specs.Joining.{IsLeastUnseated, lesser};
ghost use Rattle.st_runtime.specs.Pieces.{pids_in, calls_of, seats_at, IsSeated, IsFirstUnseated};

use crate::join::whole::place_in;
use crate::pcb::Pcb;
use crate::system::seat::Seat;
use st_core::Pid;
use st_log::{CallLog, Log, is_call};

/// Returns the least pid that isn't seated. It has a log or a seat, since a pid without either is
/// seated.
pub fn first_unseated<const TOP: u64, const RANKS: u64>(
    processes: &[Pcb<TOP, RANKS>],
    seats: &[Seat],
) -> Option<Pid>
    requires { IsRising (pids_in processes.now) }
    ensures { MatchOption result
        ((p : _) → IsSeated (record { processes = processes.now; seats = seats.now }) p)
        (IsFirstUnseated (record { processes = processes.now; seats = seats.now })) }
{
    let least = least_of_logs(processes, seats);
    least_of_seats(processes, seats, least)
}

/// Returns the least pid of a log that isn't seated.
fn least_of_logs<const TOP: u64, const RANKS: u64>(
    processes: &[Pcb<TOP, RANKS>],
    seats: &[Seat],
) -> Option<Pid>
    requires { IsRising (pids_in processes.now) }
    ensures { IsLeastUnseated (λ x. x.process.pid)
        (record { processes = processes.now; seats = seats.now })
        processes.now result }
{
    let mut least = None;
    for process in processes {
        if !is_seated(processes, seats, process.pid()) {
            least = lesser(least, process.pid());
        }
    }
    least
}

/// Returns the least pid of a log or a seat that isn't seated, given the least pid of a log that
/// isn't.
fn least_of_seats<const TOP: u64, const RANKS: u64>(
    processes: &[Pcb<TOP, RANKS>],
    seats: &[Seat],
    of_logs: Option<Pid>,
) -> Option<Pid>
    requires rising { IsRising (pids_in processes.now) }
    requires least { IsLeastUnseated (λ x. x.process.pid)
        (record { processes = processes.now; seats = seats.now })
        processes.now of_logs }
    ensures logs { IsLeastUnseated (λ x. x.process.pid)
        (record { processes = processes.now; seats = seats.now })
        processes.now result }
    ensures seats { IsLeastUnseated (λ s. s.pid)
        (record { processes = processes.now; seats = seats.now })
        seats.now result }
{
    let mut least = of_logs;
    for seat in seats {
        if !is_seated(processes, seats, seat.pid()) {
            least = lesser(least, seat.pid());
        }
    }
    least
}

/// Returns the lesser of two pids, or the only one.
fn lesser(least: Option<Pid>, pid: Pid) -> Option<Pid>
    ensures { result ≡ lesser least pid }
{
    match least {
        Some(other) if pid < other => Some(pid),
        Some(other) => Some(other),
        None => Some(pid),
    }
}

/// Returns whether the pid is seated: it has only the seat that its log tells of, and none if it
/// has no log.
pub fn is_seated<const TOP: u64, const RANKS: u64>(
    processes: &[Pcb<TOP, RANKS>],
    seats: &[Seat],
    pid: Pid,
) -> bool
    requires { IsRising (pids_in processes.now) }
    ensures { IsTrue result ↔ IsSeated
        (record { processes = processes.now; seats = seats.now }) pid }
{
    match place_in(processes, pid) {
        Some(place) => has_only_seat(seats, pid, processes[place].log()),
        None => has_no_seat(seats, pid),
    }
}

/// Returns whether the pid has exactly one seat, and its calls are those of the log.
fn has_only_seat(seats: &[Seat], pid: Pid, log: &Log) -> bool
    ensures { IsTrue result
        ↔ (seats_at seats.now pid
        ≡ record { pid = pid; mine = calls_of pid log.now.entries } ∷ []) }
{
    for (place, seat) in seats.iter().enumerate() {
        if seat.pid() == pid {
            return holds_calls(seat.mine(), pid, log) && has_no_seat(&seats[place + 1..], pid);
        }
    }
    false
}

/// Returns whether the pid has no seat.
fn has_no_seat(seats: &[Seat], pid: Pid) -> bool
    ensures { IsTrue result ↔ (seats_at seats.now pid ≡ []) }
{
    for seat in seats {
        if seat.pid() == pid {
            return false;
        }
    }
    true
}

/// Returns whether the calls are those of the pid in the log.
fn holds_calls(mine: &CallLog, pid: Pid, log: &Log) -> bool
    ensures { IsTrue result ↔ (mine.now.calls ≡ calls_of pid log.now.entries) }
{
    let mut next = 0;
    for place in 0..log.len() {
        if log.actor_at(place) == pid {
            let act = log.act_at(place);
            if next >= mine.len() || !is_call(&mine.at(next), &act, &log.reply_at(place)) {
                return false;
            }
            next += 1;
        }
    }
    next == mine.len()
}
