//! Asks which events of streams are told.

ghost use Rattle.std.specs.Prelude.{◌≡◌, ℕ, Bool};
ghost use Rattle.st_core.specs.declared.types.Pid.{Pid as PidValue};
ghost use Rattle.st_plan.specs.Marks.{all_told};

use st_core::Pid;

/// Says which events are told.
pub trait Tells {
    /// Whether the event at each place is told.
    ghost marks: { Self → PidValue → ℕ → Bool };

    /// Returns whether the event at `index` of the process is told.
    fn is_told(&self, pid: Pid, index: u64) -> bool
        ensures { result ≡ marks self.now pid index };
}

/// Marks that tell each event.
#[derive(Clone, Copy, Debug)]
pub struct Everything;

impl Tells for Everything {
    ghost marks = { λ s. all_told };

    fn is_told(&self, _pid: Pid, _index: u64) -> bool {
        true
    }
}
