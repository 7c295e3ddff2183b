//! The room that scripts need, counted before their acts are made: a log that has its room from
//! the start isn't moved as it grows. The counts are a guess, on which no promise rests.

ghost use Rattle.std.specs.Prelude.{◌≡◌, length, vec_len, IfOk};
ghost use Rattle.st_core.specs.Pid.{IsRising};

use crate::pcb::acts::receiver_of;
use crate::system::pids::place_of;
use st_core::{Act, Guesses, Pid, Sequence};
use std::alloc::{AllocError, Global};

/// Returns the number of entries that each process's log gets from the scripts: its own acts and
/// the sends to it. Other processes' acts of a whole node aren't counted, since they may be too
/// many.
pub fn expected_entries(
    alloc: Global,
    pids: &[Pid],
    guesses: &Guesses,
    scripts: &[Sequence<Act>],
) -> Result<Vec<usize>, AllocError>
    requires { IsRising pids.now }
    ensures { IfOk result (λ counts. vec_len counts ≡ length pids.now) }
{
    let mut counts = vec![in alloc; 0; pids.len()]?;
    for (place, script) in scripts.iter().enumerate() {
        count_script(&mut counts, pids, guesses, place, script.as_slice());
    }
    Ok(counts)
}

/// Counts the entries of one process's script: one at the process for each act, and one at the
/// receiver of each send.
fn count_script(counts: &mut [usize], pids: &[Pid], guesses: &Guesses, place: usize, script: &[Act])
    requires rising { IsRising pids.now }
    requires each { length counts.old ≡ length pids.now }
    ensures { length counts.new ≡ length counts.old }
{
    if place < counts.len() {
        counts[place] = counts[place].saturating_add(script.len());
    }
    for act in script {
        let to = receiver_of(act);
        if to != act.actor() {
            count_one(counts, pids, guesses, to);
        }
    }
}

/// Counts an entry of the process, if it is there.
fn count_one(counts: &mut [usize], pids: &[Pid], guesses: &Guesses, pid: Pid)
    requires rising { IsRising pids.now }
    requires each { length counts.old ≡ length pids.now }
    ensures { length counts.new ≡ length counts.old }
{
    if let Some(place) = place_of(guesses, pids, pid) {
        counts[place] = counts[place].saturating_add(1);
    }
}
