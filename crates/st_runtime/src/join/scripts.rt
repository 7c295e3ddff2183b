//! Checking that each process made its script.

ghost use Rattle.std.specs.Prelude.{◌≡◌, ◌+◌, ◌↔◌, length, map, slice_get, IfNone, IfSome, IsTrue};
ghost use Rattle.std.specs.Prelude.{OnOk, Some};
ghost use Rattle.st_core.specs.Pid.{IsRising};
ghost use Rattle.st_runtime.specs.Driven.{acts_by};
ghost use Rattle.st_runtime.specs.Joining.{AreEnded};

use crate::fault::JoinFault;
use crate::system::pids::{guesses_of, place_of};
use st_core::{Act, Pid, Sequence};
use std::alloc::Global;

/// Fails if the acts of a process aren't its script.
pub fn check_scripts(
    alloc: Global,
    pids: &[Pid],
    acts: &[Act],
    scripts: &[Sequence<Act>],
) -> Result<(), JoinFault>
    requires rising { IsRising pids.now }
    requires each { length scripts.now ≡ length pids.now }
    ensures { OnOk result (map (λ p. acts_by p acts.now) pids.now ≡ scripts.now) }
{
    let guesses = guesses_of(alloc, pids)?;
    let mut made = vec![in alloc; 0; pids.len()]?;
    for act in acts {
        let me = act.actor();
        let Some(place) = place_of(&guesses, pids, me) else {
            return Err(JoinFault::SeatDiffers(me));
        };
        let Some(next) = made_with(scripts[place].as_slice(), made[place], act) else {
            return Err(JoinFault::SeatDiffers(me));
        };
        made[place] = next;
    }
    match first_unended(pids, &made, scripts) {
        Some(pid) => Err(JoinFault::SeatDiffers(pid)),
        None => Ok(()),
    }
}

/// Returns the number of acts of the script that are made after `act`, if `act` comes next in the
/// script.
fn made_with(script: &[Act], made: usize, act: &Act) -> Option<usize>
    ensures next { IfSome result (λ _. slice_get script.now made ≡ Some act.now) }
    ensures count { IfSome result (λ n. n ≡ made + 1) }
{
    if made < script.len() && is_same_act(&script[made], act) {
        Some(made + 1)
    } else {
        None
    }
}

fn is_same_act(first: &Act, second: &Act) -> bool
    ensures { IsTrue result ↔ (first.now ≡ second.now) }
{
    *first == *second
}

/// Returns the first process that has acts of its script left.
fn first_unended(pids: &[Pid], made: &[usize], scripts: &[Sequence<Act>]) -> Option<Pid>
    requires made { length made.now ≡ length pids.now }
    requires scripts { length scripts.now ≡ length pids.now }
    ensures { IfNone result (AreEnded made.now scripts.now (length scripts.now)) }
{
    for (place, script) in scripts.iter().enumerate() {
        if made[place] != script.len() {
            return Some(pids[place]);
        }
    }
    None
}
