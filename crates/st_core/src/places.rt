//! The place of a pid among pids that rise.

ghost use Rattle.std.specs.Prelude.{◌≡◌, false, Some, IfSome, IfNone, slice_get};
ghost use Rattle.std.specs.List.{AllByRecursion};
ghost use Rattle.st_core.specs.Pid.{pid_eq, IsRising};

use crate::guesses::Guesses;
use crate::types::Pid;

/// Returns the pid's index among `pids`, which rise: the guess if it is right, else what a binary
/// search finds.
#[inline]
pub fn place_of(guesses: &Guesses, pids: &[Pid], pid: Pid) -> Option<usize>
    requires { IsRising pids.now }
    ensures found { IfSome result (λ i. slice_get pids.now i ≡ Some pid) }
    ensures missing { IfNone result (AllByRecursion (λ p. pid_eq p pid ≡ false) pids.now) }
{
    let guess = guesses.guess(pid.node(), pid.number());
    if let Some(found) = pids.get(guess) {
        if *found == pid {
            return Some(guess);
        }
    }
    pids.binary_search(&pid).ok()
}
