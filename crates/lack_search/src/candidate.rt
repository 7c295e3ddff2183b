//! Whole streams that may be a completion: the streams, with what must have happened unreported.
//!
//! If no reason holds of the streams, they are built in nearly linear time, and the same streams
//! always get the same ones:
//!
//! 1. Hidden sends get places among the receives of their processes (`walk`).
//! 2. Messages that were sent and never received are given to stamps that ask for them
//!    (`lost_messages`).
//! 3. The needs that are left get invented messages, from listed processes that don't stamp their
//!    count, or else from processes that the streams don't list (`senders`, `inventions`).

ghost use Rattle.std.specs.Prelude.{IfOk, IfSome};
ghost use Rattle.lack_search.specs.Assembly.{TellsStreams};
ghost use Rattle.lack_search.specs.Sends.{AreSendsIn};
ghost use Rattle.lack_search.specs.Unlisted.{AreUnlisted};

use crate::asks::Asks;
use crate::assembly::{Parts, assemble};
use crate::hidden_sends::hidden_sends;
use crate::inventions::invent;
use crate::lost_messages::give_lost;
use crate::senders::{Senders, find_senders};
use crate::walk::place_hidden;
use st_core::{Pid, Sequence, Streams};
use st_pair::Pairing;
use std::alloc::{AllocError, Global};

/// Whole streams that may be a completion, and their links.
#[derive(Drop)]
pub struct Candidate {
    /// All events of the listed and the unlisted processes.
    pub streams: Streams,
    /// The marks of each process, by its place: whether each of its events is told.
    pub told: Vec<Sequence<bool>>,
    /// The links of each process, by its place. The link of a receive is the index of its send
    /// among all events of the sender, that of a send the index of its receive; that of any other
    /// event may be any number.
    pub links: Vec<Sequence<u32>>,
    /// The processes that the streams don't list, by rising pid.
    pub unlisted: Vec<Pid>,
}

fn parts_of(alloc: Global, streams: &Streams, pairing: &Pairing) -> Result<Parts, AllocError>
    ensures hidden { IfOk result (λ parts. AreSendsIn streams.now parts.hidden.items) }
    ensures unlisted { IfOk result (λ parts. AreUnlisted streams.now parts.unlisted.items) }
{
    let mut hidden = hidden_sends(alloc, streams, pairing)?;
    place_hidden(alloc, streams, &mut hidden)?;
    let mut asks = Asks::of(alloc, streams, &hidden)?;
    give_lost(alloc, streams, pairing, &mut asks)?;
    let mut fed = asks.into_fed()?;
    let Senders {
        turns,
        senders,
        unlisted,
    } = find_senders(alloc, streams, &hidden, &fed)?;
    let inventions = invent(alloc, streams, &hidden, &mut fed, &turns, &senders)?;
    Ok(Parts {
        hidden,
        fed,
        inventions,
        unlisted,
    })
}

/// Builds a candidate of streams of which no reason holds. Whether anything is missing in it, the
/// judge of `lack_decide` finds out. It returns `None` only if the parts don't make streams, or if
/// an unlisted process was found twice; no test has seen either. It fails if memory runs out, or
/// if every pid is listed and one more is needed.
pub fn build_candidate(
    alloc: Global,
    streams: &Streams,
    pairing: &Pairing,
) -> Result<Option<Candidate>, AllocError>
    ensures { IfOk result (λ found. IfSome found (TellsStreams streams.now)) }
{
    let parts = parts_of(alloc, streams, pairing)?;
    assemble(alloc, streams, pairing, parts)
}
