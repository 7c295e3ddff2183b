//! The parts of acts that touch one process: its tracing state and its queue, the only mailbox of
//! its `Mailboxes`.

ghost use Rattle.std.specs.Prelude.{◌≡◌, true, length, Some, IfOk, OnOk, OnErr};
ghost use Rattle.std.specs.Option.{ForSome};
ghost use Rattle.st_core.specs.Laws.{IsStamped};
ghost use Rattle.st_core.specs.Local.{IsMeetable};
ghost use Rattle.st_core.specs.Pid.{node_eq};
ghost use Rattle.st_core.specs.Step.{acted, actor, reached};
ghost use Rattle.st_log.specs.Entries.{is_wide};
ghost use Rattle.st_mail.specs.Actor.{process_of, part_of, QueueFits, ActsOutside, HasNoPart};
ghost use Rattle.st_mail.specs.Mail.{queue_in};

use st_core::{Act, ClockFull, Kind, Local, Pid, Reply, Want};
use st_mail::actor::{event, receive, stamp};
use st_mail::{Mailboxes, Outcome};

/// Does a send's part at its sender. The message carries the token that the sender has afterwards,
/// which is one that any process can meet.
pub fn send<const TOP: u64>(
    me: Pid,
    local: &mut Local<TOP>,
    to: Pid,
    value: u64,
) -> Result<Outcome, ClockFull>
    ensures acted { IfOk result (ActsOutside TOP (Act.Send me to value) me local.old local.new) }
    ensures full { OnErr result (HasNoPart TOP (Act.Send me to value) me local.old) }
    ensures fit { OnOk result (IsMeetable TOP local.new.token) }
    ensures stamped { OnOk result (ForSome local.new.token (IsStamped TOP me)) }
{
    let _clock = local.clock();
    let _last = local.last();
    *local = stamp(me, local)?;
    Ok(Outcome {
        reply: Reply::Done,
        report: event(local.traced(), Kind::Send, local.token(), Some(to), value),
        place: None,
    })
}

/// Makes a receive.
pub fn receive_one<const TOP: u64>(
    me: Pid,
    local: &mut Local<TOP>,
    queue: &mut Mailboxes,
    want: &Want,
) -> Outcome
    requires one_box { length queue.old.boxes ≡ 1 }
    requires fit { QueueFits TOP (queue_in queue.old.boxes 0) }
    ensures acted { acted TOP (process_of me local.old (queue_in queue.old.boxes 0))
        (Act.Receive me want.now)
        ≡ Some (part_of result local.new (queue_in queue.new.boxes 0)) }
    ensures one_box { length queue.new.boxes ≡ 1 }
    ensures fit { QueueFits TOP (queue_in queue.new.boxes 0) }
{
    receive(me, local, queue, 0, want)
}

/// Does the part of an act of a whole node at one of its processes.
pub fn reach<const TOP: u64>(me: Pid, local: &mut Local<TOP>, queue: &mut Mailboxes, act: &Act)
    requires one_box { length queue.old.boxes ≡ 1 }
    requires fit { QueueFits TOP (queue_in queue.old.boxes 0) }
    requires wide { is_wide act.now ≡ true }
    requires node { node_eq me (actor act.now) ≡ true }
    ensures reached { process_of me local.new (queue_in queue.new.boxes 0)
        ≡ reached act.now None (process_of me local.old (queue_in queue.old.boxes 0)) }
    ensures one_box { length queue.new.boxes ≡ 1 }
    ensures fit { QueueFits TOP (queue_in queue.new.boxes 0) }
{
    match *act {
        Act::Reset(_) => {
            local.wipe();
            queue.wipe_tokens(0);
        }
        Act::Tracer(_, on) => {
            let _was = local.trace(on);
        }
        _ => unreachable!(),
    }
}
