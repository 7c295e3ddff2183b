//! Short forms for the entries of frequent acts under a token. The report and the token that a
//! message carried follow from the short form.

ghost use Rattle.std.specs.Prelude.{◌≡◌, IfSome, IsTrue};
ghost use Rattle.st_core.specs.Step.{actor};
ghost use Rattle.st_log.specs.TracedActs.{traced_rest, with_rank};

use crate::entry::Entry;
use crate::row::Unranked;
use crate::same::is_same_report;
use st_core::{Act, Event, Flags, Kind, Label, Pid, Reply, Serial, Token, Want};

/// The form of an act under a token.
#[derive(Clone, Copy, PartialEq, Eq)]
pub enum TracedForm {
    /// A send that wasn't reported; its message carried a token from the sender with the flags.
    Send(Flags),
    /// A send that was reported; its message carried a token from the sender with the flags.
    ReportedSend(Flags),
    /// A print that was reported.
    Print,
    /// A reported receive by `Want::First`.
    First,
    /// A reported receive by `Want::From` with the message's sender.
    From,
    /// A reported receive by `Want::Value` with the message's value.
    Value,
    /// A reported receive by `Want::Both` with the message's sender and value.
    Both,
}

/// The entry of an act under a token, without its rank.
#[derive(Clone, Copy, PartialEq, Eq)]
pub struct TracedAct {
    form: TracedForm,
    label: Label,
    actor: Pid,
    /// The receiver of a send, the sender of a received message, or the actor of a print.
    other: Pid,
    value: u64,
    serial: Serial,
}

// Keeps an act under a token at 40 bytes in each log, beside its row.
const _: () = prove!(size_of::<TracedAct>() == 40);

/// Returns the short form that says the whole entry but its rank, if there is one.
pub fn traced_of(entry: &Entry) -> Option<TracedAct>
    ensures { IfSome result (λ t. with_rank entry.now.rank (traced_rest t) ≡ entry.now) }
{
    let act = likely_act(entry)?;
    if is_same_report(&act.report(), &entry.report) {
        return Some(act);
    }
    None
}

/// Returns the only short form that may say the entry, if there is one. It does if it says the
/// report too. A receive by place has none.
fn likely_act(entry: &Entry) -> Option<TracedAct>
    ensures act { IfSome result (λ t. (traced_rest t).act ≡ entry.now.act) }
    ensures reply { IfSome result (λ t. (traced_rest t).reply ≡ entry.now.reply) }
    ensures carried { IfSome result (λ t. (traced_rest t).carried ≡ entry.now.carried) }
{
    let (form, actor, other, value) = match (entry.act, entry.reply, entry.carried, entry.report) {
        (Act::Send(me, to, value), Reply::Done, Some(token), None) if token.from == me => {
            (TracedForm::Send(token.flags), me, to, value)
        }
        (Act::Send(me, to, value), Reply::Done, Some(token), Some(_)) if token.from == me => {
            (TracedForm::ReportedSend(token.flags), me, to, value)
        }
        (Act::Print(me, value), Reply::Done, None, Some(_)) => (TracedForm::Print, me, me, value),
        (Act::Receive(me, want), Reply::Mail(from, value), None, Some(_)) => {
            let form = match want {
                Want::First => TracedForm::First,
                Want::From(sender) if sender == from => TracedForm::From,
                Want::Value(asked) if asked == value => TracedForm::Value,
                Want::Both(sender, asked) if sender == from && asked == value => TracedForm::Both,
                _ => return None,
            };
            (form, me, from, value)
        }
        _ => return None,
    };
    let (label, serial) = match (entry.carried, entry.report) {
        (Some(token), _) => (token.label, token.serial),
        (None, Some(event)) => (event.label, event.serial),
        (None, None) => return None,
    };
    Some(TracedAct {
        form,
        label,
        actor,
        other,
        value,
        serial,
    })
}

/// Returns true only if the two short forms are equal.
pub fn is_same_form(first: &TracedAct, second: &TracedAct) -> bool
    ensures { IsTrue result → first.now ≡ second.now }
{
    *first == *second
}

impl TracedAct {
    /// Returns the entry without its rank.
    pub fn without_rank(self) -> Unranked
        ensures { result ≡ traced_rest self }
    {
        Unranked {
            act: self.act(),
            reply: self.reply(),
            report: self.report(),
            carried: self.carried(),
        }
    }

    /// Returns the entry's actor.
    #[inline]
    pub fn actor(self) -> Pid
        ensures { result ≡ actor (traced_rest self).act }
    {
        self.actor
    }

    /// Returns the entry's act.
    pub fn act(self) -> Act
        ensures { result ≡ (traced_rest self).act }
    {
        let want = match self.form {
            TracedForm::Send(_) | TracedForm::ReportedSend(_) => {
                return Act::Send(self.actor, self.other, self.value);
            }
            TracedForm::Print => return Act::Print(self.actor, self.value),
            TracedForm::First => Want::First,
            TracedForm::From => Want::From(self.other),
            TracedForm::Value => Want::Value(self.value),
            TracedForm::Both => Want::Both(self.other, self.value),
        };
        Act::Receive(self.actor, want)
    }

    /// Returns the entry's reply.
    pub fn reply(self) -> Reply
        ensures { result ≡ (traced_rest self).reply }
    {
        match self.form {
            TracedForm::Send(_) | TracedForm::ReportedSend(_) | TracedForm::Print => Reply::Done,
            TracedForm::First | TracedForm::From | TracedForm::Value | TracedForm::Both => {
                Reply::Mail(self.other, self.value)
            }
        }
    }

    /// Returns the event that the entry reported, if it did.
    pub fn report(self) -> Option<Event>
        ensures { result ≡ (traced_rest self).report }
    {
        let (kind, from, to) = match self.form {
            TracedForm::Send(_) => return None,
            TracedForm::ReportedSend(_) => (Kind::Send, self.actor, Some(self.other)),
            TracedForm::Print => (Kind::Print, self.actor, None),
            TracedForm::First | TracedForm::From | TracedForm::Value | TracedForm::Both => {
                (Kind::Receive, self.other, Some(self.actor))
            }
        };
        Some(Event {
            label: self.label,
            kind,
            to,
            from,
            serial: self.serial,
            value: self.value,
        })
    }

    /// Returns the token that the entry's message carried, if it had one.
    fn carried(self) -> Option<Token>
        ensures { result ≡ (traced_rest self).carried }
    {
        match self.form {
            TracedForm::Send(flags) | TracedForm::ReportedSend(flags) => Some(Token {
                label: self.label,
                flags,
                serial: self.serial,
                from: self.actor,
            }),
            _ => None,
        }
    }
}
