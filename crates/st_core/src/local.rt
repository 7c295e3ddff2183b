//! The tracing state of one process, without its queue, and how acts change it.
//!
//! Each call is one process's part of a step of the machine; the caller chooses the process and
//! the order. No call takes memory.

ghost use Rattle.std.specs.Prelude.{◌≡◌, ◌≤◌, ◌↔◌, IsTrue, IsSome, OnErr, IfOk};
ghost use Rattle.st_core.specs.Local.{received, with_set, old_component, wiped, IsMeetable};
ghost use Rattle.st_core.specs.Stamp.{stamp};
ghost use Rattle.st_core.specs.State.{zero_local};

use crate::types::{Component, Pid, Serial, Token};
use std::marker::Model;
use thiserror::Error;

/// The clock is at TOP, so `advance` can stamp no token (own profile).
#[derive(Clone, Copy, Debug, PartialEq, Eq, Error)]
#[error("the clock is full")]
pub struct ClockFull;

/// The tracing state of a process: a token or none; a trace clock, 0 to TOP; a last serial, which
/// is at most the clock; and whether a system tracer is set on its node.
#[derive(Clone, Copy)]
pub struct Local<const TOP: u64> {
    token: Option<Token>,
    clock: u64,
    last: u64,
    traced: bool,
}

impl<const TOP: u64> Model for Local<TOP> {
    ghost use Rattle.std.specs.Prelude.{◌≤◌};
    ghost use Rattle.st_core.specs.State.{LocalState};

    ghost Value = { LocalState };

    ghost view = { λ a. record {
      token = a.token;
      clock = a.clock;
      last = a.last;
      traced = a.traced;
    } };

    ghost inverse = { λ l. record {
      token = l.token;
      clock = l.clock;
      last = l.last;
      traced = l.traced;
    } };

    ghost invariant = { λ a. (a.last ≤ a.clock) × (a.clock ≤ TOP) };
}

impl<const TOP: u64> Local<TOP> {
    /// Returns a state with no token, both counts 0, and not traced.
    pub const fn new() -> Self
        ensures { result ≡ zero_local }
    {
        Local {
            token: None,
            clock: 0,
            last: 0,
            traced: false,
        }
    }

    /// Returns the token, if there is one.
    pub fn token(&self) -> Option<Token>
        ensures { result ≡ self.now.token }
    {
        self.token
    }

    /// The trace clock.
    pub fn clock(&self) -> u64
        ensures value { result ≡ self.now.clock }
        ensures within { result ≤ TOP }
    {
        self.clock
    }

    /// The last serial: the count last received with a token, or the clock at the start of a new
    /// trace.
    pub fn last(&self) -> u64
        ensures value { result ≡ self.now.last }
        ensures within { result ≤ self.now.clock }
    {
        self.last
    }

    /// Whether a system tracer is set.
    pub fn traced(&self) -> bool
        ensures { result ≡ self.now.traced }
    {
        self.traced
    }

    /// Stamps the token for a send or a print of `me`: the clock grows by one, and the token gets
    /// the serial {last, clock} (manual) and `me` as its from. At clock TOP it fails and changes
    /// nothing.
    pub fn advance(&mut self, me: Pid) -> Result<Token, ClockFull>
        requires { IsSome self.old.token }
        ensures stamped { IfOk result
            (λ t. (stamp TOP me self.old ≡ Some self.new) × (self.new.token ≡ Some t)) }
        ensures full { OnErr result ((stamp TOP me self.old ≡ None) × (self.new ≡ self.old)) }
    {
        if self.clock == TOP {
            return Err(ClockFull);
        }
        let token = self.token.unwrap();
        self.clock += 1;
        let token = Token {
            serial: Serial {
                prev: self.last,
                this: self.clock,
            },
            from: me,
            ..token
        };
        self.token = Some(token);
        Ok(token)
    }

    /// Returns whether the token's count is at most TOP, as that of every stamped token is.
    pub fn fits(token: &Token) -> bool
        ensures { IsTrue result ↔ IsMeetable TOP (Some token.now) }
    {
        token.serial.this <= TOP
    }

    /// Takes over a received message's token, or loses its own if the message has none (manual).
    /// With a token last becomes the token's count (manual), and so does the clock if the count is
    /// greater (own profile).
    pub fn meet(&mut self, token: Option<Token>)
        requires { IsMeetable TOP token }
        ensures { self.new ≡ received self.old token }
    {
        if let Some(token) = token {
            self.last = token.serial.this;
            self.clock = self.clock.max(token.serial.this);
        }
        self.token = token;
    }

    /// Sets a component of the token, and returns the old one. If there is no token, `me` first
    /// makes the default one, which starts a new trace, so last becomes the clock; the call then
    /// returns none.
    pub fn set(&mut self, me: Pid, component: Component) -> Option<Component>
        ensures new { self.new ≡ with_set me component self.old }
        ensures old { result ≡ old_component component self.old }
    {
        match self.token {
            Some(token) => {
                self.token = Some(token.with(component));
                Some(token.component(component))
            }
            None => {
                self.last = self.clock;
                self.token = Some(Token::made_by(me).with(component));
                None
            }
        }
    }

    /// Replaces the token by another or by none, and returns the old one (manual for none, own
    /// profile for a token). Clock and last stay (own profile).
    pub fn restore(&mut self, token: Option<Token>) -> Option<Token>
        ensures new { self.new ≡ record self.old { token = token } }
        ensures old { result ≡ self.old.token }
    {
        let before = self.token;
        self.token = token;
        before
    }

    /// Removes the token and sets both counts to 0, as a reset does (manual).
    pub fn wipe(&mut self)
        ensures { self.new ≡ wiped self.old }
    {
        self.token = None;
        self.clock = 0;
        self.last = 0;
    }

    /// Sets or removes the system tracer, and returns whether there was one (manual).
    pub fn trace(&mut self, on: bool) -> bool
        ensures new { self.new ≡ record self.old { traced = on } }
        ensures old { result ≡ self.old.traced }
    {
        let before = self.traced;
        self.traced = on;
        before
    }
}
