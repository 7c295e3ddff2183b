//! The order that every list of processes keeps: rising pids.

ghost use Rattle.std.specs.Prelude.{◌≡◌, ◌↔◌, IsTrue};
ghost use Rattle.std.specs.Ordering.{is_lt};
ghost use Rattle.st_core.specs.Pid.{pid_cmp, IsRising};

use crate::types::Pid;

/// Returns whether each pid is above the one before it (own profile).
pub fn is_rising(pids: &[Pid]) -> bool
    ensures { IsTrue result ↔ IsRising pids.now }
{
    pids.is_sorted_by(
        |before: &Pid, after: &Pid| -> bool
            ensures { result ≡ is_lt (pid_cmp before.now after.now) }
        { before < after },
    )
}
