//! The actor's part of an act: what it does to the actor's tracing state and queue. The caller
//! puts a send's message into its receiver's queue. What a reset or a tracer change does to a
//! process is in `st_core`.

ghost use Rattle.std.specs.Prelude.{◌≡◌, ◌<◌, true, length, set, IfOk, OnErr};
ghost use Rattle.std.specs.Result.{result_ok};
ghost use Rattle.st_core.specs.Local.{IsMeetable};
ghost use Rattle.st_core.specs.Report.{report};
ghost use Rattle.st_core.specs.Stamp.{stamp_any};
ghost use Rattle.st_core.specs.Step.{acted, actor};
ghost use Rattle.st_mail.specs.Actor.{process_of, part_of, is_inner, QueueFits, ActsOutside};
ghost use Rattle.st_mail.specs.Actor.{HasNoPart};
ghost use Rattle.st_mail.specs.Mail.{queue_in};

use crate::{Mailboxes, Outcome};
use st_core::{Act, ClockFull, Event, Kind, Label, Local, Pid, Reply, Token, Want};

/// Returns an outcome that has only a reply.
pub fn answer(reply: Reply) -> Outcome
    ensures { result ≡ record { reply = reply; report = None; place = None } }
{
    Outcome {
        reply,
        report: None,
        place: None,
    }
}

/// Returns the event of the token in force, if the process is traced and the flag of the event's
/// kind is set (`seq_trace` manual page; that the process must be traced is own profile).
pub fn event(
    traced: bool,
    kind: Kind,
    token: Option<Token>,
    to: Option<Pid>,
    value: u64,
) -> Option<Event>
    ensures { result ≡ report traced kind token to value }
{
    let token = token?;
    let flag = match kind {
        Kind::Send => token.flags.send,
        Kind::Receive => token.flags.receive,
        Kind::Print => token.flags.print,
    };
    if traced && flag {
        Some(Event {
            label: token.label,
            kind,
            serial: token.serial,
            from: token.from,
            to,
            value,
        })
    } else {
        None
    }
}

/// Returns the tracing state after the stamp of a send or a print, which is unchanged if the
/// process has no token. Fails if the clock is at `TOP`.
pub fn stamp<const TOP: u64>(me: Pid, local: &Local<TOP>) -> Result<Local<TOP>, ClockFull>
    ensures stamp { result_ok result ≡ stamp_any TOP me local.now }
    ensures fit { IfOk result (λ l. IsMeetable TOP l.token) }
    ensures traced { IfOk result (λ l. l.traced ≡ local.now.traced) }
{
    let mut local = *local;
    if local.token().is_some() {
        local.advance(me)?;
    }
    Ok(local)
}

/// Prints. If there is a token it is stamped, even if its flag for prints isn't set.
fn print<const TOP: u64>(me: Pid, local: &mut Local<TOP>, value: u64) -> Result<Outcome, ClockFull>
    ensures acted { IfOk result (ActsOutside TOP (Act.Print me value) me local.old local.new) }
    ensures full { OnErr result (HasNoPart TOP (Act.Print me value) me local.old) }
    ensures err { OnErr result (local.new ≡ local.old) }
{
    let traced = local.traced();
    let token = match local.token() {
        None => None,
        Some(_) => Some(local.advance(me)?),
    };
    Ok(Outcome {
        reply: Reply::Done,
        report: event(traced, Kind::Print, token, None, value),
        place: None,
    })
}

/// Prints if the token has the label, and otherwise does nothing.
fn print_at<const TOP: u64>(
    me: Pid,
    local: &mut Local<TOP>,
    label: Label,
    value: u64,
) -> Result<Outcome, ClockFull>
    ensures acted { IfOk result (
        ActsOutside TOP (Act.PrintAt me label value) me local.old local.new) }
    ensures full { OnErr result (HasNoPart TOP (Act.PrintAt me label value) me local.old) }
    ensures err { OnErr result (local.new ≡ local.old) }
{
    match local.token() {
        Some(token) if token.label == label => print(me, local, value),
        _ => Ok(answer(Reply::Done)),
    }
}

/// Makes an act that leaves all queues: no send, receive, reset or tracer change. Fails if the act
/// stamps and the clock is at `TOP`.
pub fn inner<const TOP: u64>(
    me: Pid,
    local: &mut Local<TOP>,
    act: &Act,
) -> Result<Outcome, ClockFull>
    requires inner { is_inner act.now ≡ true }
    requires me { actor act.now ≡ me }
    ensures acted { IfOk result (ActsOutside TOP act.now me local.old local.new) }
    ensures full { OnErr result (HasNoPart TOP act.now me local.old) }
    ensures err { OnErr result (local.new ≡ local.old) }
{
    match *act {
        Act::Print(_, value) => print(me, local, value),
        Act::PrintAt(_, label, value) => print_at(me, local, label, value),
        Act::Set(_, component) => Ok(answer(Reply::Old(local.set(me, component)))),
        Act::Clear(_) => Ok(answer(Reply::Previous(local.restore(None)))),
        Act::Restore(_, token) => Ok(answer(Reply::Previous(local.restore(Some(token))))),
        Act::Look(_) => Ok(answer(Reply::Current(local.token()))),
        Act::Send(..) | Act::Receive(..) | Act::Reset(_) | Act::Tracer(..) => unreachable!(),
    }
}

/// Receives from the mailbox with the number `mailbox`, in which each token must be one that the
/// process can meet.
pub fn receive<const TOP: u64>(
    me: Pid,
    local: &mut Local<TOP>,
    queues: &mut Mailboxes,
    mailbox: usize,
    want: &Want,
) -> Outcome
    requires mailbox { mailbox < length queues.old.boxes }
    requires fit { QueueFits TOP (queue_in queues.old.boxes mailbox) }
    ensures acted { acted TOP (process_of me local.old (queue_in queues.old.boxes mailbox))
        (Act.Receive me want.now)
        ≡ Some (part_of result local.new (queue_in queues.new.boxes mailbox)) }
    ensures others { queues.new.boxes
        ≡ set queues.old.boxes mailbox (queue_in queues.new.boxes mailbox) }
    ensures fit { QueueFits TOP (queue_in queues.new.boxes mailbox) }
{
    let traced = local.traced();
    match queues.take(mailbox, want) {
        None => answer(Reply::Nothing),
        Some((place, message)) => {
            local.meet(message.token);
            Outcome {
                reply: Reply::Mail(message.from, message.value),
                report: event(
                    traced,
                    Kind::Receive,
                    message.token,
                    Some(me),
                    message.value,
                ),
                place: Some(place),
            }
        }
    }
}
