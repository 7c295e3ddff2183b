//! The partner of an event.

ghost use Rattle.std.specs.Prelude.{◌≡◌, List};
ghost use Rattle.st_core.specs.Run.{Stream};
ghost use Rattle.st_pair.specs.Links.{IsPairing};
ghost use Rattle.st_pair.specs.Rows.{partner_of, partner_of_receive, partner_of_send};
ghost use Rattle.st_pair.specs.Rows.{place_of_partner};

use crate::answer::Source;
use crate::pairing::Pairing;
use st_core::{Kind, Pid};

/// The partner of an event. A place is a process and an index among its events, from 0.
#[derive(Clone, Copy)]
pub enum Partner {
    /// No event: a print has no partner.
    Nobody,
    /// The receive at this place took the send.
    Receive(Pid, u64),
    /// Nobody reported the receive of the send.
    NoReceive,
    /// The send at this place is the receive's.
    Send(Pid, u64),
    /// Nobody reported the send of the receive.
    NoSend,
}

impl Partner {
    /// Returns the place of the partner, if it is a reported event.
    pub fn place(self) -> Option<(Pid, u64)>
        ensures { result ≡ place_of_partner self }
    {
        match self {
            Partner::Receive(pid, index) | Partner::Send(pid, index) => Some((pid, index)),
            Partner::Nobody | Partner::NoReceive | Partner::NoSend => None,
        }
    }
}

fn partner_of_send(receive: Option<(Pid, u64)>) -> Partner
    ensures { result ≡ partner_of_send receive }
{
    match receive {
        None => Partner::NoReceive,
        Some((pid, index)) => Partner::Receive(pid, index),
    }
}

fn partner_of_receive(source: Option<Source>) -> Partner
    ensures { result ≡ partner_of_receive source }
{
    match source {
        Some(Source::Event(pid, index)) => Partner::Send(pid, index),
        Some(Source::Hidden) | None => Partner::NoSend,
    }
}

/// Returns the partner of the event at this place, which is of kind `kind`.
pub fn partner_at(pairing: &Pairing, pid: Pid, index: u64, kind: Kind) -> Partner
    ensures { (streams : List Stream) → IsPairing streams pairing.now
        → result ≡ partner_of streams pid index kind }
{
    match kind {
        Kind::Print => Partner::Nobody,
        Kind::Send => partner_of_send(pairing.receiver(pid, index)),
        Kind::Receive => partner_of_receive(pairing.source(pid, index)),
    }
}
