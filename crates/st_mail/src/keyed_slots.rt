//! Slots that are looked up by a key.

ghost use Rattle.std.specs.Prelude.{◌≡◌, ◌==◌, ◌&&◌, ◌||◌, ℕ, true, false, not, OnOk};
ghost use Rattle.std.specs.Ordering.{is_eq};
ghost use Rattle.st_mail.specs.KeyedSlots.{has_key, is_kept, IsFirst};

use std::alloc::{AllocError, Global};
use std::collections::BTreeSet;

/// Pairs of a key and a slot that has it, ordered by key and then slot, so that the slots of a key
/// are neighbours and rise. If keys of this sort aren't kept, there are no pairs.
#[derive(Drop)]
pub struct KeyedSlots<K: Ord> {
    pairs: Option<BTreeSet<(K, usize)>>,
}

impl<K: Ord + Copy> KeyedSlots<K> {
    /// Makes a set in which no slot has a key. It keeps keys only if `keeps` is true.
    pub(crate) fn new(alloc: Global, keeps: bool) -> KeyedSlots<K>
        ensures none { (k : K) (s : ℕ) → has_key K.cmp result k s ≡ false }
        ensures kept { is_kept result ≡ keeps }
    {
        let pairs = if keeps {
            Some(BTreeSet::new(alloc))
        } else {
            None
        };
        KeyedSlots { pairs }
    }

    pub(crate) fn is_kept(&self) -> bool
        ensures { result ≡ is_kept self.now }
    {
        self.pairs.is_some()
    }

    /// Gives the slot the key, if keys are kept. Fails if memory runs out.
    pub(crate) fn insert(&mut self, key: K, slot: usize) -> Result<(), AllocError>
        ensures inserted { OnOk result (is_kept self.old ≡ true → (k : K) (s : ℕ) →
            has_key K.cmp self.new k s
            ≡ (is_eq (K.cmp key k) && slot == s || has_key K.cmp self.old k s)) }
        ensures kept { is_kept self.new ≡ is_kept self.old }
    {
        if let Some(pairs) = &mut self.pairs {
            let Ok(_) = pairs.insert((key, slot)) else {
                return Err(AllocError);
            };
        }
        Ok(())
    }

    /// Takes the key from the slot.
    pub(crate) fn remove(&mut self, key: K, slot: usize)
        ensures removed { (k : K) (s : ℕ) → has_key K.cmp self.new k s
            ≡ (not (is_eq (K.cmp key k) && slot == s) && has_key K.cmp self.old k s) }
        ensures kept { is_kept self.new ≡ is_kept self.old }
    {
        if let Some(pairs) = &mut self.pairs {
            let _ = pairs.remove(&(key, slot));
        }
    }

    /// Returns the least slot from `start` on that has the key.
    pub(crate) fn first(&self, key: K, start: usize) -> Option<usize>
        ensures { IsFirst (has_key K.cmp self.now key) start result }
    {
        let Some(pairs) = &self.pairs else {
            return None;
        };
        let (found, slot) = pairs.range((key, start)..).next()?;
        if found.cmp(&key).is_eq() {
            Some(*slot)
        } else {
            None
        }
    }
}
