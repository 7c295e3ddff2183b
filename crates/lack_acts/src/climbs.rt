//! Shared climbs: if several processes pass the same counts unreported, one stamps them all, and
//! the others take a message from it.
//!
//! A process whose next send or print counts far above its clock has passed the counts between.
//! Each costs a silent print, unless the process received a message with such a count, which
//! raised its clock at once. So the completion gets further sends, with counts that their
//! processes pass anyway, and their receives. And a process that seems to begin a new trace takes
//! a message with that count that nobody received, if there is one: that is likelier than a new
//! trace.
//!
//! A receive also sets the prev of the next event. So a message is taken before an event that
//! begins a new trace, with a count up to the clock at which that trace begins; or right before
//! another receive, which sets the prev itself.

ghost use Rattle.std.specs.Prelude.{◌≡◌, ◌≤◌, true, false, All, IfOk, IfSome, OnOk};
ghost use Rattle.std.specs.BTreeMap.{btree_map_len};
ghost use Rattle.lack_needs.specs.Completions.{wholes_with};
ghost use Rattle.lack_acts.specs.Gaps.{opens_trace};
ghost use Rattle.lack_acts.specs.Insertions.{AreInsertions, IsInsertion};
ghost use Rattle.lack_acts.specs.Offers.{IsRestOf, IsWishFor};
ghost use Rattle.lack_acts.specs.Told.{TellsAs};

use crate::gaps::{Gap, MESSAGE_ACTS, gaps_of};
use crate::insertion::{Insertion, with_insertions};
use crate::marked_streams::{MarkedStreams, pid_at};
use crate::messages::{Receipt, put_message};
use crate::offers::{Offer, Offers, offer_of};
use st_core::{Event, Kind, Pid, Sequence, Streams};
use st_pair::{PairFault, Pairing, pair};
use std::alloc::{AllocError, Global};
use std::collections::BTreeMap;

/// A gap that a message can shorten.
#[derive(Clone, Copy, PartialEq, Eq, PartialOrd, Ord)]
struct Wish {
    /// The greatest count that the message may have.
    target: u64,
    /// The place of the gap among all gaps.
    gap: usize,
}

/// Returns the gaps that a message can shorten, by the rising count that it may have, and offers
/// the counts of the other gaps.
fn wishes_of(alloc: Global, gaps: &[Gap], offers: &mut Offers) -> Result<Vec<Wish>, AllocError>
    ensures { IfOk result (λ wishes. All (IsWishFor gaps.now) wishes.items) }
{
    let mut wishes = Vec::new(alloc);
    for (number, gap) in gaps.iter().enumerate() {
        match gap.target() {
            Some(target) => wishes.push(Wish {
                target,
                gap: number,
            })?,
            None => offers.put(offer_of(gap, number))?,
        }
    }
    wishes.sort()?;
    Ok(wishes)
}

/// The search for messages that save acts.
#[derive(Drop)]
struct Sharing {
    gaps: Vec<Gap>,
    offers: Offers,
    untold: Vec<Insertion>,
}

impl Sharing {
    /// Lets the process of the gap take a message with the offered count, if this saves enough.
    /// Returns what is left of the offer.
    fn accept(
        &mut self,
        streams: &Streams,
        number: usize,
        offer: Offer,
    ) -> Result<Offer, AllocError>
        requires { AreInsertions streams.now self.old.untold.items }
        ensures untold { OnOk result (AreInsertions streams.now self.new.untold.items) }
        ensures rest { IfOk result (IsRestOf offer) }
    {
        let Some(&from) = self.gaps.get(offer.gap) else {
            return Ok(offer);
        };
        let Some(to) = self.gaps.get_mut(number) else {
            return Ok(offer);
        };
        if !to.gains_by(offer.next) {
            return Ok(offer);
        }
        let receipt = Receipt {
            process: to.process,
            index: to.entry(),
            label: to.label,
            comes_last: false,
        };
        if !put_message(&mut self.untold, streams, &from, receipt, offer.next)? {
            return Ok(offer);
        }
        to.enter(offer.next);
        Ok(Offer {
            next: offer.next.saturating_sub(1),
            ..offer
        })
    }

    /// Looks for a message for the gap, and then offers the counts that its process passes.
    fn serve(&mut self, streams: &Streams, wish: Wish) -> Result<(), AllocError>
        requires { AreInsertions streams.now self.old.untold.items }
        ensures { OnOk result (AreInsertions streams.now self.new.untold.items) }
    {
        if let Some(offer) = self.offers.take(wish.target)? {
            let rest = self.accept(streams, wish.gap, offer)?;
            self.offers.put(rest)?;
        }
        if let Some(gap) = self.gaps.get(wish.gap) {
            self.offers.put(offer_of(gap, wish.gap))?;
        }
        Ok(())
    }
}

/// The receiver, by its place, and the count of a waiting message.
#[derive(Clone, Copy, PartialEq, Eq, PartialOrd, Ord)]
struct Address {
    to: usize,
    count: u64,
}

/// The sends that nobody receives, by the address of their message.
#[derive(Drop)]
struct Waiting {
    sends: BTreeMap<Address, Event>,
}

impl Waiting {
    /// Notes the sends of a process that nobody receives.
    fn note_process(
        &mut self,
        streams: &Streams,
        pairing: &Pairing,
        pid: Pid,
    ) -> Result<(), AllocError>
        ensures { OnOk result (btree_map_len self.old.sends ≤ btree_map_len self.new.sends) }
    {
        for (index, event) in streams.events(pid).iter().enumerate() {
            let to = match event.kind {
                Kind::Send if pairing.receiver(pid, index as u64).is_none() => event.to,
                _ => None,
            };
            if let Some(to) = to.and_then(|to| streams.place_of(to)) {
                let count = event.serial.this;
                self.sends.insert(Address { to, count }, *event)?;
            }
        }
        Ok(())
    }

    /// Takes out the send whose message waits at the count at which the gap's process begins a new
    /// trace, and returns the receive.
    fn take(&mut self, streams: &Streams, gap: &Gap) -> Option<Insertion>
        ensures own { IfSome result (IsInsertion streams.now) }
        ensures begins { IfSome result (λ _. opens_trace gap.now ≡ true) }
    {
        if !gap.opens_trace() {
            return None;
        }
        let address = Address {
            to: gap.process,
            count: gap.serial.prev,
        };
        let sent = self.sends.remove(&address)?;
        receipt_of(streams, gap, &sent)
    }
}

/// Returns the sends that nobody receives; none if no gap ends in a new trace.
fn waiting_for(alloc: Global, streams: &Streams, gaps: &[Gap]) -> Result<Waiting, AllocError>
    ensures { IfOk result (λ waiting. All (λ gap. opens_trace gap ≡ false) gaps.now
        → btree_map_len waiting.sends ≡ 0) }
{
    let mut waiting = Waiting {
        sends: BTreeMap::new(alloc),
    };
    if !gaps.iter().any(|gap| gap.opens_trace()) {
        return Ok(waiting);
    }
    let pairing = match pair(alloc, streams) {
        Ok(pairing) => pairing,
        Err(PairFault::Memory) => return Err(AllocError),
        Err(_) => return Ok(waiting),
    };
    for &pid in streams.pids() {
        waiting.note_process(streams, &pairing, pid)?;
    }
    Ok(waiting)
}

/// Returns the receive of a waiting message by the process of the gap.
fn receipt_of(streams: &Streams, gap: &Gap, sent: &Event) -> Option<Insertion>
    ensures { IfSome result (IsInsertion streams.now) }
{
    let pid = pid_at(streams, gap.process)?;
    Some(Insertion {
        process: gap.process,
        index: gap.index,
        comes_last: false,
        event: Event {
            kind: Kind::Receive,
            to: Some(pid),
            ..*sent
        },
    })
}

/// Lets each process that begins a new trace take a message with that count, if one waits: then it
/// needn't begin a trace.
fn take_waiting(
    waiting: &mut Waiting,
    streams: &Streams,
    gaps: &mut [Gap],
    untold: &mut Vec<Insertion>,
) -> Result<(), AllocError>
    requires { AreInsertions streams.now untold.old.items }
    ensures { OnOk result (AreInsertions streams.now untold.new.items) }
{
    for gap in gaps.iter_mut() {
        if let Some(receive) = waiting.take(streams, gap) {
            untold.push(receive)?;
            gap.enter(receive.event.serial.this);
            gap.is_served = true;
        }
    }
    Ok(())
}

/// Returns the messages by which processes share climbs, and the receives of messages that waited.
fn shared_messages(alloc: Global, streams: &Streams) -> Result<Vec<Insertion>, AllocError>
    ensures { IfOk result (λ untold. AreInsertions streams.now untold.items) }
{
    // A message saves more than half of the acts only if more counts are missing than twice its
    // own acts.
    let mut gaps = gaps_of(alloc, streams, 2 * MESSAGE_ACTS)?;
    let mut untold = Vec::new(alloc);
    let mut waiting = waiting_for(alloc, streams, &gaps)?;
    take_waiting(&mut waiting, streams, gaps.as_mut_slice(), &mut untold)?;
    drop(waiting);
    let mut offers = Offers::new(alloc);
    let wishes = wishes_of(alloc, &gaps, &mut offers)?;
    let mut sharing = Sharing {
        gaps,
        offers,
        untold,
    };
    for &wish in wishes.iter().rev() {
        sharing.serve(streams, wish)?;
    }
    let Sharing { untold, .. } = sharing;
    Ok(untold)
}

/// Adds messages by which processes share climbs; `None` if no message saves enough, or a pid that
/// an event names isn't listed.
pub(crate) fn with_shared_climbs(
    alloc: Global,
    streams: &Streams,
    marks: &[Sequence<bool>],
) -> Result<Option<MarkedStreams>, AllocError>
    ensures { IfOk result (λ some. IfSome some (TellsAs (wholes_with streams.now marks.now))) }
{
    let untold = shared_messages(alloc, streams)?;
    if untold.is_empty() {
        return Ok(None);
    }
    with_insertions(alloc, streams, marks, untold)
}
