//! The numbers of the sends whose messages lie in each queue: one list for each process, in step
//! with its queue.

ghost use Rattle.std.specs.Prelude.{◌≡◌, ◌<◌, ◌++◌, [], ◌∷◌, map, length, slice_get, if◌then◌else◌};
ghost use Rattle.std.specs.Prelude.{Some, IfOk, OnOk, option_and_then};
ghost use Rattle.st_arena.specs.Arena.{list_at};
ghost use Rattle.st_check.specs.Progress.{without_tag, pair_to};
ghost use Rattle.st_core.specs.Pairs.{Tags, tags_after, pair_at};
ghost use Rattle.st_core.specs.Pid.{pid_eq, IsRising};
ghost use Rattle.st_core.specs.Run.{pids_of};
ghost use Rattle.st_core.specs.Step.{actor};

use st_arena::Lists;
use st_core::{Act, Pid, Streams};
use std::alloc::AllocError;

/// Puts the number of a send at the end of its receiver's list.
fn push_tag(
    tags: &mut Lists<u64>,
    streams: &Streams,
    to: Pid,
    number: u64,
) -> Result<(), AllocError>
    requires rising { IsRising (pids_of streams.now) }
    requires even { length tags.old.lists ≡ length (pids_of streams.now) }
    ensures { OnOk result ((t : Tags) → tags.old.lists ≡ map t (pids_of streams.now) →
        tags.new.lists ≡ map (λ x. if pid_eq x to then t x ++ number ∷ [] else t x)
        (pids_of streams.now)) }
{
    let Some(list) = streams.place_of(to) else {
        return Ok(());
    };
    tags.push_back(list, number)?;
    Ok(())
}

/// Takes out the number of the send whose message a receive took from this place of its queue, if
/// it took one.
fn take_tag(tags: &mut Lists<u64>, list: usize, place: Option<u64>) -> Option<u64>
    requires { list < length tags.old.lists }
    ensures value { result ≡ option_and_then (slice_get (list_at tags.old list)) place }
    ensures lists { tags.new.lists ≡ without_tag tags.old.lists list place }
{
    tags.take_at(list, place?)
}

/// Keeps the tags in step with the queues after the step of an act; `list` is the actor's, and
/// `place` is where in its queue a receive found its message. Returns the number of the send whose
/// message a receive took.
pub(crate) fn retag(
    tags: &mut Lists<u64>,
    streams: &Streams,
    list: usize,
    act: &Act,
    number: u64,
    place: Option<u64>,
) -> Result<Option<u64>, AllocError>
    requires rising { IsRising (pids_of streams.now) }
    requires even { length tags.old.lists ≡ length (pids_of streams.now) }
    requires actor { slice_get (pids_of streams.now) list ≡ Some (actor act.now) }
    ensures tags { OnOk result ((t : Tags) → tags.old.lists ≡ map t (pids_of streams.now) →
        tags.new.lists ≡ map (tags_after t number act.now place) (pids_of streams.now)) }
    ensures pair { IfOk result (λ sent. (t : Tags) → tags.old.lists ≡ map t (pids_of streams.now) →
        pair_at t number act.now place ≡ pair_to number sent) }
{
    match *act {
        Act::Send(_, to, _) => {
            push_tag(tags, streams, to, number)?;
            Ok(None)
        }
        Act::Receive(..) => Ok(take_tag(tags, list, place)),
        Act::Print(..)
        | Act::PrintAt(..)
        | Act::Set(..)
        | Act::Clear(_)
        | Act::Restore(..)
        | Act::Look(_)
        | Act::Reset(_)
        | Act::Tracer(..) => Ok(None),
    }
}
