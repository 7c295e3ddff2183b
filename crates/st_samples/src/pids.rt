//! Two processes.

ghost use Rattle.std.specs.Prelude.{◌≡◌};
ghost use Rattle.st_core.specs.Pid.{pid_on};

use st_core::Pid;

/// Returns process 30 of node 0.
pub fn p30() -> Pid
    ensures { result ≡ pid_on 0 30 }
{
    Pid::new(30)
}

/// Returns process 31 of node 0.
pub fn p31() -> Pid
    ensures { result ≡ pid_on 0 31 }
{
    Pid::new(31)
}
