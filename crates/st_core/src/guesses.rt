//! Guesses where a pid is in a list of pids. Only that a guess is safe is proved, not that it is
//! right.
//!
//! Each act and each event names pids, so their places are asked for often. The caller looks at
//! the guessed place first, and searches if another pid is there. So a wrong guess costs one
//! search, even if somebody chooses pids that share a slot.
use std::alloc::{AllocError, Global};

/// Limits the table to 65,536 slots, as many as the places that a guess can name.
const MOST_SLOT_BITS: u32 = 16;

/// The distance between the slots of one number on neighbouring nodes: a prime, which shares no
/// factor with the number of slots. Numbers that rise by one from node to node lie 662 slots
/// apart, which shares only the factor 2.
const NODE_STEP: usize = 661;

/// For each slot the place that was last given for a pid of the slot. The table is on the heap, so
/// moving a value that holds guesses copies none.
#[derive(Debug, Drop)]
pub struct Guesses {
    places: Vec<u16>,
}

impl Guesses {
    /// Returns no guesses. Takes no memory.
    pub fn none(alloc: Global) -> Guesses {
        Guesses {
            places: Vec::new(alloc),
        }
    }

    /// Returns the guess 0 for each pid, with at least two slots for each of `count` pids, up to
    /// the limit. Fails only if memory runs out.
    pub fn for_pids(alloc: Global, count: usize) -> Result<Guesses, AllocError> {
        let last = (count as u64).saturating_sub(1);
        let width = u64::BITS.saturating_sub(last.leading_zeros());
        let slots = 1usize.wrapping_shl(width.saturating_add(1).min(MOST_SLOT_BITS));
        let places = vec![in alloc; 0u16; slots]?;
        Ok(Guesses { places })
    }

    /// Makes guesses for `count` pids, if there are none yet and there is memory for them.
    pub fn fill(&mut self, count: usize) {
        if self.places.is_empty() {
            let alloc = *self.places.allocator();
            if let Ok(guesses) = Guesses::for_pids(alloc, count) {
                *self = guesses;
            }
        }
    }

    /// Makes `place` the guess for the pid with this node and number. A place above 65,535 doesn't
    /// fit, so the pid is found by a search.
    pub fn expect(&mut self, node: u16, number: u16, place: usize) {
        let slot = self.slot_of(node, number);
        if let Some(guess) = self.places.get_mut(slot) {
            *guess = place.min(usize::from(u16::MAX)) as u16;
        }
    }

    /// Returns the guess for the pid with this node and number; 0 if there are no guesses.
    #[inline]
    pub fn guess(&self, node: u16, number: u16) -> usize {
        match self.places.get(self.slot_of(node, number)) {
            None => 0,
            Some(guess) => usize::from(*guess),
        }
    }

    /// Returns the pid's slot. There are no slots, or a power of two, so pids whose numbers follow
    /// one another don't meet.
    #[inline]
    fn slot_of(&self, node: u16, number: u16) -> usize {
        let most = self.places.len().saturating_sub(1);
        (usize::from(number) + NODE_STEP * usize::from(node)) & most
    }
}
