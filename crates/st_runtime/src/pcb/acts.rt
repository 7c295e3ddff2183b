//! The processes that an act needs, and the kinds of acts.

ghost use Rattle.std.specs.Prelude.{◌≡◌};
ghost use Rattle.st_core.specs.Step.{receiver};
ghost use Rattle.st_runtime.specs.Locked.{wide_reply};
ghost use Rattle.st_runtime.specs.System.{is_stamping};

use st_core::{Act, Pid, Reply};

/// Returns the receiver of a send, and of any other act the actor.
pub fn receiver_of(act: &Act) -> Pid
    ensures { result ≡ receiver act.now }
{
    match *act {
        Act::Send(_, to, _) => to,
        Act::Receive(me, _)
        | Act::Print(me, _)
        | Act::PrintAt(me, _, _)
        | Act::Set(me, _)
        | Act::Clear(me)
        | Act::Restore(me, _)
        | Act::Look(me)
        | Act::Reset(me)
        | Act::Tracer(me, _) => me,
    }
}

/// Returns the reply to an act of a whole node, if the actor was traced or not.
pub fn wide_reply(act: &Act, was: bool) -> Reply
    ensures { result ≡ wide_reply act.now was }
{
    match *act {
        Act::Tracer(..) => Reply::Was(was),
        _ => Reply::Done,
    }
}

/// Returns whether the act stamps its actor's token, if there is one.
pub fn is_stamping(act: &Act) -> bool
    ensures { result ≡ is_stamping act.now }
{
    matches!(*act, Act::Send(..) | Act::Print(..) | Act::PrintAt(..))
}
