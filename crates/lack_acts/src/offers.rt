//! Offers: counts that processes pass anyway, so that a message with one of them costs no further
//! stamp.

ghost use Rattle.std.specs.Prelude.{◌≡◌, ◌∷◌, ◌<◌, ◌≤◌, [], All, IfOk, IfSome, OnOk, IsPermutation};
ghost use Rattle.std.specs.BinaryHeap.{heap_items};
ghost use Rattle.lack_acts.specs.Offers.{offer_of};

use crate::gaps::Gap;
use std::alloc::{AllocError, Global};
use std::collections::BinaryHeap;

/// The counts of a gap that no message has yet: those above `low`, up to `next`. Offers are
/// ordered by them.
#[derive(Clone, Copy, PartialEq, Eq, PartialOrd, Ord)]
pub(crate) struct Offer {
    pub next: u64,
    pub low: u64,
    /// The place of the gap among all gaps.
    pub gap: usize,
}

/// The offers, for a caller that asks for falling counts.
#[derive(Drop)]
pub(crate) struct Offers {
    /// The offers that reach up to the count that was asked for last.
    ready: Vec<Offer>,
    /// The other offers.
    below: BinaryHeap<Offer>,
}

impl Offers {
    /// Returns no offers.
    pub(crate) fn new(alloc: Global) -> Offers
        ensures ready { result.ready.items ≡ [] }
        ensures below { heap_items result.below ≡ [] }
    {
        Offers {
            ready: Vec::new(alloc),
            below: BinaryHeap::new(alloc),
        }
    }

    /// Adds the offer to those that aren't ready, unless nothing is left of it.
    pub(crate) fn put(&mut self, offer: Offer) -> Result<(), AllocError>
        ensures put { OnOk result (offer.low < offer.next
            → IsPermutation (offer ∷ heap_items self.old.below) (heap_items self.new.below)) }
        ensures nothing { offer.next ≤ offer.low → self.new ≡ self.old }
        ensures ready { self.new.ready ≡ self.old.ready }
    {
        if offer.low < offer.next {
            self.below.push(offer)?;
        }
        Ok(())
    }

    /// Makes the offers that reach up to the count ready, and takes out the first of the others.
    fn make_ready(&mut self, count: u64) -> Result<Option<Offer>, AllocError>
        ensures reach { All (λ o. count ≤ o.next) self.old.ready.items
            → OnOk result (All (λ o. count ≤ o.next) self.new.ready.items) }
        ensures below { IfOk result (λ some. IfSome some (λ o. o.next ≤ count)) }
    {
        for _ in 0..self.below.len() {
            match self.below.pop() {
                None => return Ok(None),
                Some(offer) if offer.next < count => return Ok(Some(offer)),
                Some(offer) => self.ready.push(offer)?,
            }
        }
        Ok(None)
    }

    /// Takes out the offer with the greatest count up to the given one, which becomes its `next`.
    pub(crate) fn take(&mut self, count: u64) -> Result<Option<Offer>, AllocError>
        ensures { IfOk result (λ some. IfSome some (λ o. o.next ≤ count)) }
    {
        let below = self.make_ready(count)?;
        for _ in 0..self.ready.len() {
            if let Some(offer) = self.ready.pop() {
                if offer.low < count {
                    if let Some(other) = below {
                        self.below.push(other)?;
                    }
                    return Ok(Some(Offer {
                        next: count,
                        ..offer
                    }));
                }
            }
        }
        Ok(below)
    }
}

/// Returns all counts that the process of the gap passes.
pub(crate) fn offer_of(gap: &Gap, number: usize) -> Offer
    ensures { result ≡ offer_of gap.now number }
{
    Offer {
        next: gap.serial.this.saturating_sub(1),
        low: gap.start,
        gap: number,
    }
}
