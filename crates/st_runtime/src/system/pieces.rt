//! Processes that were taken out of their locks, with the seats.

ghost use Rattle.std.specs.Prelude.{◌≡◌};
ghost use Rattle.st_core.specs.Pid.{IsRising};
ghost use Rattle.st_runtime.specs.Pieces.{pids_in};

use crate::pcb::Pcb;
use crate::system::seat::Seat;
use std::marker::Model;

/// The processes and the seats of a system that no thread uses any more. The pids of the processes
/// rise strictly; the seats are any.
#[derive(Drop)]
pub struct Pieces<const TOP: u64, const RANKS: u64> {
    pub(crate) processes: Vec<Pcb<TOP, RANKS>>,
    pub(crate) seats: Vec<Seat>,
}

impl<const TOP: u64, const RANKS: u64> Model for Pieces<TOP, RANKS> {
    ghost use Rattle.st_core.specs.Pid.{IsRising};
    ghost use Rattle.st_runtime.specs.Pieces.{Parts, pids_in};

    ghost Value = { Parts };

    ghost view = { λ p. record { processes = p.processes.items; seats = p.seats.items } };

    ghost invariant = { λ p. IsRising (pids_in p.processes.items) };
}

impl<const TOP: u64, const RANKS: u64> Pieces<TOP, RANKS> {
    /// Makes pieces of processes and seats. Takes no memory.
    pub fn new(processes: Vec<Pcb<TOP, RANKS>>, seats: Vec<Seat>) -> Pieces<TOP, RANKS>
        requires { IsRising (pids_in processes.items) }
        ensures processes { result.processes ≡ processes.entry.items }
        ensures seats { result.seats ≡ seats.items }
    {
        Pieces { processes, seats }
    }

    /// Returns the processes, without the seats.
    pub fn into_processes(self) -> Vec<Pcb<TOP, RANKS>>
        ensures processes { result.items ≡ self.entry.processes }
        ensures rising { IsRising (pids_in result.items) }
    {
        self.processes
    }
}
