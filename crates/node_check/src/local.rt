//! The tracing state of one process of a standard node, without its queue, and how its own acts
//! change it.

ghost use Rattle.std.specs.Prelude.{◌≡◌, ℕ, true, option_map, List};
ghost use Rattle.node_check.specs.Steps.{IsNodePart};
ghost use Rattle.node_machine.specs.Counts.{node_token};
ghost use Rattle.node_machine.specs.Node.{after_answer, after_put_back, after_set, after_stamp};
ghost use Rattle.node_machine.specs.Node.{Answer, Common};
ghost use Rattle.st_core.specs.declared.types.Message.{Message as MessageValue};
ghost use Rattle.st_core.specs.declared.types.Want.{Want as WantValue};
ghost use Rattle.st_core.specs.declared.types.Want.TheVariants.{Place};
ghost use Rattle.st_core.specs.Pick.{pick};
ghost use Rattle.st_core.specs.Local.{received, wiped};
ghost use Rattle.st_core.specs.State.{zero_local};
ghost use Rattle.st_core.specs.Step.{actor};
ghost use Rattle.st_mail.specs.Actor.{is_inner, process_of};
ghost use Rattle.st_mail.specs.Mail.{queue_without};

use crate::counts::{answer_count, clock_after, count_after, held, held_if_any, shown};
use st_core::{Act, Component, Event, Kind, Label, Message, Pid, Serial, Token};
use st_mail::actor::event;
use std::marker::Model;

/// A process's token, if it has one; its clock; its last, as a serial shows it; and whether its
/// node is traced.
#[derive(Clone, Copy)]
pub(crate) struct Local {
    token: Option<Token>,
    clock: u64,
    last: u64,
    traced: bool,
}

impl Model for Local {
    ghost use Rattle.st_core.specs.State.{LocalState};

    ghost Value = { LocalState };

    ghost view = { λ a. record {
      token = a.token;
      clock = a.clock;
      last = a.last;
      traced = a.traced;
    } };

    ghost inverse = { λ l. record {
      token = l.token;
      clock = l.clock;
      last = l.last;
      traced = l.traced;
    } };
}

impl Local {
    /// Returns the state at the start: no token, both counts at 0, and not traced.
    pub(crate) const fn new() -> Local
        ensures { result ≡ zero_local }
    {
        Local {
            token: None,
            clock: 0,
            last: 0,
            traced: false,
        }
    }

    pub(crate) fn token(&self) -> Option<Token>
        ensures { result ≡ self.now.token }
    {
        self.token
    }

    pub(crate) fn traced(&self) -> bool
        ensures { result ≡ self.now.traced }
    {
        self.traced
    }

    /// Stamps the token for a send or a print of `me`, if there is one.
    pub(crate) fn stamp(&mut self, me: Pid)
        ensures { self.new ≡ after_stamp me self.old }
    {
        let Some(token) = self.token else {
            return;
        };
        self.token = Some(Token {
            serial: Serial {
                prev: self.last,
                this: count_after(self.clock),
            },
            from: me,
            ..token
        });
        self.clock = clock_after(self.clock);
    }

    /// Takes over the token of a received message, or takes the token away if it has none.
    fn meet(&mut self, token: Option<Token>)
        ensures { self.new ≡ received self.old token }
    {
        if let Some(token) = token {
            self.last = token.serial.this;
            self.clock = self.clock.max(token.serial.this);
        }
        self.token = token;
    }

    /// Takes over the counts of a spawn's answer, if its message has a token, and keeps the token.
    fn meet_answer(&mut self, token: Option<Token>)
        ensures { self.new ≡ after_answer self.old (option_map node_token token) }
    {
        if let Some(token) = token {
            self.clock = answer_count(shown(token.serial.this));
            self.last = shown(self.clock);
        }
    }

    /// Sets a component of the token, which it makes first if there is none.
    fn set(&mut self, me: Pid, component: Component)
        ensures { self.new ≡ after_set me component self.old }
    {
        let token = match self.token {
            Some(token) => token,
            None => Token {
                serial: Serial {
                    prev: self.last,
                    this: 0,
                },
                ..Token::made_by(me)
            },
        };
        self.token = Some(token.with(component));
    }

    /// Puts a token back, with its counts.
    fn put_back(&mut self, token: Token)
        ensures { self.new ≡ after_put_back token self.old }
    {
        self.token = Some(held(token));
        self.clock = shown(token.serial.this);
        self.last = shown(token.serial.prev);
    }

    fn clear(&mut self)
        ensures { self.new ≡ record self.old { token = None } }
    {
        self.token = None;
    }

    /// Forgets the token and both counts, as a reset does.
    pub(crate) fn wipe(&mut self)
        ensures { self.new ≡ wiped self.old }
    {
        self.token = None;
        self.clock = 0;
        self.last = 0;
    }

    pub(crate) fn trace(&mut self, on: bool)
        ensures { self.new ≡ record self.old { traced = on } }
    {
        self.traced = on;
    }

    /// Prints: stamps, with the flag or without, and returns the report.
    fn print(&mut self, me: Pid, value: u64) -> Option<Event>
        ensures { (queue : List MessageValue) → IsNodePart (process_of me self.old queue)
            (Common (Act.Print me value)) self.new queue result }
    {
        self.stamp(me);
        event(self.traced, Kind::Print, self.token, None, value)
    }

    /// Prints if the token has the label, and else does nothing.
    fn print_at(&mut self, me: Pid, label: Label, value: u64) -> Option<Event>
        ensures { (queue : List MessageValue) → IsNodePart (process_of me self.old queue)
            (Common (Act.PrintAt me label value)) self.new queue result }
    {
        let token = self.token;
        match token {
            Some(token) if token.label == label => self.print(me, value),
            _ => None,
        }
    }

    /// Receives the message that was taken from a place, and returns the report.
    pub(crate) fn take(&mut self, me: Pid, taken: Option<(u64, Message)>) -> Option<Event>
        ensures { (queue : List MessageValue) (want : WantValue) → taken ≡ pick want queue
            → IsNodePart (process_of me self.old queue) (Common (Act.Receive me want)) self.new
            (queue_without taken queue) result }
    {
        let (_, message) = taken?;
        let token = held_if_any(message.token);
        self.meet(token);
        event(self.traced, Kind::Receive, token, Some(me), message.value)
    }

    /// Ends a spawn with the message that was taken from a place, and returns the report.
    pub(crate) fn take_answer(&mut self, me: Pid, taken: Option<(u64, Message)>) -> Option<Event>
        ensures { (queue : List MessageValue) (at : ℕ) → taken ≡ pick (Place at) queue
            → IsNodePart (process_of me self.old queue) (Answer me at) self.new
            (queue_without taken queue) result }
    {
        let (_, message) = taken?;
        self.meet_answer(message.token);
        event(
            self.traced,
            Kind::Receive,
            held_if_any(message.token),
            Some(me),
            message.value,
        )
    }

    /// Does an act that leaves all queues: no send, receive, reset or tracer change. Returns its
    /// report.
    pub(crate) fn act(&mut self, me: Pid, act: &Act) -> Option<Event>
        requires inner { is_inner act.now ≡ true }
        requires me { actor act.now ≡ me }
        ensures { (queue : List MessageValue) → IsNodePart (process_of me self.old queue)
            (Common act.now) self.new queue result }
    {
        match *act {
            Act::Print(_, value) => self.print(me, value),
            Act::PrintAt(_, label, value) => self.print_at(me, label, value),
            Act::Set(_, component) => {
                self.set(me, component);
                None
            }
            Act::Clear(_) => {
                self.clear();
                None
            }
            Act::Restore(_, token) => {
                self.put_back(token);
                None
            }
            Act::Look(_) => None,
            Act::Send(..) | Act::Receive(..) | Act::Reset(_) | Act::Tracer(..) => unreachable!(),
        }
    }
}
