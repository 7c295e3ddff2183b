//! The pairing of each reported receive with its send.

ghost use Rattle.std.specs.Prelude.{◌≡◌, false, List, [], ◌∷◌, map, None, Some};
ghost use Rattle.std.specs.Prelude.{slice_get, IfOk, IfErr, IfSome, IfNone, OnOk};
ghost use Rattle.std.specs.List.{AllByRecursion};
ghost use Rattle.st_core.specs.Pid.{pid_eq, IsRising};
ghost use Rattle.st_core.specs.Run.{pids_of, Stream};
ghost use Rattle.st_pair.specs.Pairing.{first_rule, mismatch, source_at, receiver_at};
ghost use Rattle.st_pair.specs.Pairing.{refusal, IsPairFault};
ghost use Rattle.st_pair.specs.Places.{event_at, first, first_from};
ghost use Rattle.st_core.specs.Streams.{events_of};
ghost use Rattle.st_pair.specs.Final.{RulesOut};
ghost use Rattle.st_pair.specs.Links.{IsPairing, link_at, link_of, pairing_of, links_in};
ghost use Rattle.st_pair.specs.Links.{receiver_in, source_in};
ghost use Rattle.st_pair.specs.Rules.{IsFirstFault};
ghost use Rattle.st_pair.specs.Tables.{link_back, sent_in, AreTables, IsGot};

use crate::answer::{PairFault, Source};
use crate::links::{Links, Sources};
use crate::receives::{Key, Receives};
use crate::rules::{Rule, mismatch_at};
use crate::stamp_table::Stamps;
use st_core::{Event, Guesses, Kind, Pid, Streams, place_of};
use std::alloc::{AllocError, Global};
use std::marker::Model;

/// The link of an event to its partner.
#[derive(Clone, Copy, Debug, PartialEq, Eq)]
pub enum Link {
    /// A print, which has no partner.
    Printed,
    /// A send that no reported receive took.
    Unpaired,
    /// A send, with the place of its receive.
    To(Pid, u64),
    /// A receive, with the place of the send or print that has its sender and count.
    From(Pid, u64),
    /// A receive of a hidden send.
    Hidden,
}

impl Link {
    /// Returns the source of the message, if the event is a receive.
    fn source(self) -> Option<Source>
        ensures { result ≡ source_in self }
    {
        match self {
            Link::From(pid, index) => Some(Source::Event(pid, index)),
            Link::Hidden => Some(Source::Hidden),
            Link::Printed | Link::Unpaired | Link::To(..) => None,
        }
    }

    /// Returns the index of the send or print, if the event is a receive of a reported one.
    pub fn sent(self) -> Option<u64>
        ensures { result ≡ sent_in self }
    {
        match self {
            Link::From(_, index) => Some(index),
            Link::Printed | Link::Unpaired | Link::To(..) | Link::Hidden => None,
        }
    }

    /// Returns the place of the receive, if the event is a send that has one.
    fn receiver(self) -> Option<(Pid, u64)>
        ensures { result ≡ receiver_in self }
    {
        match self {
            Link::To(pid, index) => Some((pid, index)),
            Link::Printed | Link::Unpaired | Link::From(..) | Link::Hidden => None,
        }
    }
}

/// The source of each receive and the receiver of each send, in streams that pairing accepts: 16
/// bytes an event.
#[derive(Debug, Drop)]
pub struct Pairing {
    pids: Vec<Pid>,
    guesses: Guesses,
    links: Vec<Links>,
}

impl Model for Pairing {
    ghost use Rattle.std.specs.Prelude.{List};
    ghost use Rattle.st_pair.specs.Links.{ProcessLinks, link_rows, AreLinkLists};

    ghost Value = { List ProcessLinks };

    ghost view = { λ a. link_rows a.pids.items a.links.items };

    ghost invariant = { λ a. AreLinkLists a.pids.items a.links.items };
}

impl Pairing {
    /// Returns the link of the event at this place.
    fn link(&self, pid: Pid, index: u64) -> Option<Link>
        ensures { result ≡ link_at self.now pid index }
    {
        match place_of(&self.guesses, &self.pids, pid) {
            None => None,
            Some(place) => nth_link(self.links[place].as_slice(), index),
        }
    }

    /// Returns the source of the message of the receive at this place; none if there is no receive.
    pub fn source(&self, pid: Pid, index: u64) -> Option<Source>
        ensures { (streams : List Stream) → IsPairing streams self.now
            → result ≡ source_at streams pid index }
    {
        match self.link(pid, index) {
            None => None,
            Some(link) => link.source(),
        }
    }

    /// Returns the place of the receive that is paired with the send at this place; none if there
    /// is no send, or no receive is paired with it.
    pub fn receiver(&self, pid: Pid, index: u64) -> Option<(Pid, u64)>
        ensures { (streams : List Stream) → IsPairing streams self.now
            → result ≡ receiver_at streams pid index }
    {
        match self.link(pid, index) {
            None => None,
            Some(link) => link.receiver(),
        }
    }
}

fn nth_link(links: &[Link], index: u64) -> Option<Link>
    ensures { result ≡ slice_get links.now index }
{
    links.get(index as usize).copied()
}

/// The tables by which streams are paired, if none of the first three reasons holds.
#[derive(Drop)]
struct Tables {
    /// For each sender and count the first receive that has them.
    got: Receives,
    /// The link of each event, in which a send is still unpaired.
    links: Vec<Links>,
}

impl Tables {
    /// Makes the tables of the streams, or returns the first of the three reasons that holds.
    fn of(alloc: Global, streams: &Streams) -> Result<Tables, PairFault>
        ensures accepted { OnOk result
            (refusal streams.now ≡ first_rule streams.now (mismatch streams.now ∷ [])) }
        ensures tables { IfOk result (λ tables. AreTables streams.now tables) }
        ensures err { IfErr result (IsPairFault streams.now) }
    {
        if let Some(fault) = Rule::PrevNotBefore.first_fault(streams) {
            return Err(fault);
        }
        if let Some(fault) = Rule::NotRising.first_fault(streams) {
            return Err(fault);
        }
        let Ok(mut sent) = Stamps::of(alloc, streams) else {
            return Err(PairFault::Memory);
        };
        let Ok(sources) = Sources::of(alloc, streams, &mut sent) else {
            return Err(PairFault::Memory);
        };
        let Sources { links, hidden_keys } = sources;
        let got = Receives::of(alloc, streams, &links, hidden_keys)?;
        Ok(Tables { got, links })
    }
}

/// Returns the link of the event at `index` of the process at `place`. If the event isn't a send,
/// that is `link`.
fn link_of(
    got: &Receives,
    streams: &Streams,
    pid: Pid,
    place: usize,
    index: u64,
    event: &Event,
    link: Link,
) -> Link
    requires got { IsGot streams.now got.now }
    requires place { slice_get (pids_of streams.now) place ≡ Some pid }
    requires event { event_at streams.now pid index ≡ Some event.now }
    requires link { link ≡ link_back streams.now event.now }
    ensures { result ≡ link_of streams.now pid event.now }
{
    match event.kind {
        Kind::Print | Kind::Receive => link,
        Kind::Send => {
            let key = Key {
                from: pid,
                this: event.serial.this,
            };
            match got.first_of(streams, key, place, index) {
                None => Link::Unpaired,
                Some((to, index)) => Link::To(to, index),
            }
        }
    }
}

/// Fills in the receivers of one process's sends, up to the first receive that differs from its
/// send, and returns the fault of that receive.
fn fill_in(
    got: &Receives,
    streams: &Streams,
    pid: Pid,
    place: usize,
    events: &[Event],
    links: &mut Links,
) -> Option<PairFault>
    requires got { IsGot streams.now got.now }
    requires place { slice_get (pids_of streams.now) place ≡ Some pid }
    requires events { events.now ≡ events_of streams.now pid }
    requires links { links.old ≡ map (link_back streams.now) events.now }
    ensures links { result ≡ None → links.new ≡ map (link_of streams.now pid) events.now }
    ensures fault { result ≡ first_from (mismatch streams.now) pid 0 events.now }
{
    for (i, event) in events.iter().enumerate() {
        let link = link_of(
            got,
            streams,
            pid,
            place,
            i as u64,
            event,
            links.as_slice()[i],
        );
        if let Some(fault) = mismatch_at(streams, pid, i as u64, event, link) {
            return Some(fault);
        }
        links.put(i, link);
    }
    None
}

/// Fills in the receivers of all sends. Fails at the first receive that differs from its send.
fn links_of(streams: &Streams, tables: Tables) -> Result<Vec<Links>, PairFault>
    requires { AreTables streams.now tables }
    ensures ok { IfOk result (λ lists. lists.items ≡ map (links_in streams.now) streams.now) }
    ensures matched { OnOk result (first (mismatch streams.now) streams.now ≡ None) }
    ensures err { IfErr result (IsFirstFault (first (mismatch streams.now) streams.now)) }
{
    let Tables { got, mut links } = tables;
    let pids = streams.pids();
    for (place, pid) in pids.iter().enumerate() {
        let events = streams.events(*pid);
        if let Some(fault) = fill_in(&got, streams, *pid, place, events, &mut links[place]) {
            return Err(fault);
        }
    }
    Ok(links)
}

/// Makes guesses from which the place of each pid is found.
fn guesses_at(alloc: Global, pids: &[Pid]) -> Result<Guesses, AllocError> {
    let mut guesses = Guesses::for_pids(alloc, pids.len())?;
    for (place, pid) in pids.iter().enumerate() {
        guesses.expect(pid.node(), pid.number(), place);
    }
    Ok(guesses)
}

fn pids_of(alloc: Global, streams: &Streams) -> Result<Vec<Pid>, AllocError>
    ensures { IfOk result (λ pids. pids.items ≡ pids_of streams.now) }
{
    let mut pids = Vec::new(alloc);
    pids.extend_from_slice(streams.pids())?;
    Ok(pids)
}

/// Makes the pairing from the links of the streams.
fn pairing_of(alloc: Global, streams: &Streams, links: Vec<Links>) -> Result<Pairing, AllocError>
    requires { links.items ≡ map (links_in streams.now) streams.now }
    ensures { IfOk result (λ pairing. pairing ≡ pairing_of streams.now streams.now) }
{
    let pids = pids_of(alloc, streams)?;
    let guesses = guesses_at(alloc, streams.pids())?;
    Ok(Pairing {
        pids,
        guesses,
        links,
    })
}

/// Pairs the receives of streams with their sends, or returns the first reason that holds. Fails
/// too if memory runs out.
pub fn pair(alloc: Global, streams: &Streams) -> Result<Pairing, PairFault>
    ensures ok { IfOk result (IsPairing streams.now) }
    ensures err { IfErr result (IsPairFault streams.now) }

    // No acts show streams that have the first reason, and no acts without a reset show streams
    // that have any of them.
    ensures rules_out { IfErr result (RulesOut streams.now) }
{
    let tables = Tables::of(alloc, streams)?;
    let links = links_of(streams, tables)?;
    match pairing_of(alloc, streams, links) {
        Err(_) => Err(PairFault::Memory),
        Ok(pairing) => Ok(pairing),
    }
}
