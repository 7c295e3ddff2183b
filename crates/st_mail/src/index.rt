//! The index of one queue.

ghost use Rattle.std.specs.Prelude.{◌≡◌, ◌+◌, ◌-◌, ◌<◌, ◌≤◌, ◌==◌, ◌&&◌, ◌++◌, [], ◌∷◌, List, ℕ};
ghost use Rattle.std.specs.Prelude.{drop, remove, Some, IfOk, OnOk, option_map, position, true};
ghost use Rattle.std.specs.Prelude.{slice_get};
ghost use Rattle.st_core.specs.declared.types.Message.{Message};
ghost use Rattle.st_core.specs.Pid.{pid_eq};

use crate::keyed_slots::KeyedSlots;
use crate::keys::Keys;
use st_arena::Ranks;
use st_core::{Message, Pid, Token};
use std::alloc::{AllocError, Global};

/// An index of one queue of messages. A contract says of which queue it is an index (`IsIndexOf`),
/// as a list of messages from the oldest on.
#[derive(Drop)]
pub struct Index {
    // A message gets the next slot when it joins the queue, and the slot is live until it leaves.
    // So the message's place is its slot's rank.
    ranks: Ranks,
    // The number of slots given out.
    used: usize,
    // The slots by their messages' value, sender, both, and stamp, so far as these keys are kept.
    values: KeyedSlots<u64>,
    senders: KeyedSlots<Pid>,
    pairs: KeyedSlots<(Pid, u64)>,
    stamps: KeyedSlots<(Pid, u64)>,
}

impl Index {
    ghost use Rattle.st_mail.specs.Index.{IsIndexOf, IsIndex, room, bears_stamp, keys_of};

    /// Makes an index of the empty queue by `keys`, with room for at least `slots` messages. Fails
    /// if memory runs out.
    pub fn new(alloc: Global, slots: usize, keys: Keys) -> Result<Index, AllocError>
        ensures empty { IfOk result (λ index. IsIndexOf index []) }
        ensures keys { IfOk result (λ index. keys_of index ≡ keys) }
        ensures room { IfOk result (λ index. slots ≤ room index) }
    {
        let ranks = Ranks::new(alloc, slots, 0)?;
        Ok(Index {
            ranks,
            used: 0,
            values: KeyedSlots::new(alloc, keys.value),
            senders: KeyedSlots::new(alloc, keys.sender),
            pairs: KeyedSlots::new(alloc, keys.both),
            stamps: KeyedSlots::new(alloc, keys.stamp),
        })
    }

    /// Returns the keys by which the index finds messages.
    pub fn keys(&self) -> Keys
        ensures { result ≡ keys_of self.now }
    {
        Keys {
            value: self.values.is_kept(),
            sender: self.senders.is_kept(),
            both: self.pairs.is_kept(),
            stamp: self.stamps.is_kept(),
        }
    }

    /// Returns how many more messages fit: each push uses a slot, and no slot is used twice.
    pub fn room(&self) -> usize
        requires { IsIndex self.now }
        ensures { result ≡ room self.now }
    {
        self.ranks.len() - self.used
    }

    /// Adds a message that joins the queue at its end. Fails if memory runs out, and then the
    /// index is of no more use.
    pub fn push(&mut self, message: &Message) -> Result<(), AllocError>
        requires index { IsIndex self.old }
        requires room { 0 < room self.old }
        ensures pushed { (queue : List Message) → IsIndexOf self.old queue →
            OnOk result (IsIndexOf self.new (queue ++ message.now ∷ [])) }
        ensures room { OnOk result (room self.new + 1 ≡ room self.old) }
        ensures keys { keys_of self.new ≡ keys_of self.old }
    {
        let slot = self.used;
        self.values.insert(message.value, slot)?;
        self.senders.insert(message.from, slot)?;
        self.pairs.insert((message.from, message.value), slot)?;
        insert_stamp(&mut self.stamps, &message.token, slot)?;
        // Reads the number of slots: only then is it known to be a `usize`, so that `used + 1`
        // fits.
        let _slot_count = self.ranks.len();
        self.ranks.mark_live(slot);
        self.used += 1;
        Ok(())
    }

    /// Removes the message at `place`, which leaves the queue.
    pub fn remove(&mut self, place: u64, message: &Message)
        requires { IsIndex self.old }
        ensures removed { (queue : List Message) → IsIndexOf self.old queue →
            slice_get queue place ≡ Some message.now → IsIndexOf self.new (remove queue place) }
        ensures room { room self.new ≡ room self.old }
        ensures keys { keys_of self.new ≡ keys_of self.old }
    {
        let Some(slot) = self.ranks.select(place) else {
            return;
        };
        self.ranks.mark_dead(slot);
        self.values.remove(message.value, slot);
        self.senders.remove(message.from, slot);
        self.pairs.remove((message.from, message.value), slot);
        remove_stamp(&mut self.stamps, &message.token, slot);
    }

    /// Returns the least place of a message from the process `from`.
    pub fn find_from(&self, from: Pid) -> Option<u64>
        requires index { IsIndex self.now }
        requires kept { (keys_of self.now).sender ≡ true }
        ensures { (queue : List Message) → IsIndexOf self.now queue →
            result ≡ position (λ m. pid_eq m.from from) queue }
    {
        let slot = self.senders.first(from, 0)?;
        Some(self.ranks.rank(slot))
    }

    /// Returns the least place of a message with the value.
    pub fn find_value(&self, value: u64) -> Option<u64>
        requires index { IsIndex self.now }
        requires kept { (keys_of self.now).value ≡ true }
        ensures { (queue : List Message) → IsIndexOf self.now queue →
            result ≡ position (λ m. m.value == value) queue }
    {
        let slot = self.values.first(value, 0)?;
        Some(self.ranks.rank(slot))
    }

    /// Returns the least place of a message from the process `from` with the value.
    pub fn find_both(&self, from: Pid, value: u64) -> Option<u64>
        requires index { IsIndex self.now }
        requires kept { (keys_of self.now).both ≡ true }
        ensures { (queue : List Message) → IsIndexOf self.now queue →
            result ≡ position (λ m. pid_eq m.from from && m.value == value) queue }
    {
        let slot = self.pairs.first((from, value), 0)?;
        Some(self.ranks.rank(slot))
    }

    /// Returns the least place from `start` on whose message's token has the from `from` and the
    /// own count `this`.
    pub fn find_stamp(&self, from: Pid, this: u64, start: u64) -> Option<u64>
        requires index { IsIndex self.now }
        requires kept { (keys_of self.now).stamp ≡ true }
        ensures { (queue : List Message) → IsIndexOf self.now queue →
            result ≡ option_map (λ k. start + k)
            (position (λ m. bears_stamp from this m.token) (drop start queue)) }
    {
        let behind = self.ranks.select(start)?;
        let slot = self.stamps.first((from, this), behind)?;
        Some(self.ranks.rank(slot))
    }
}

ghost use Rattle.std.specs.Prelude.{◌||◌, not};
ghost use Rattle.st_mail.specs.Index.{bears_stamp, pid_count_cmp};
ghost use Rattle.st_mail.specs.KeyedSlots.{has_key, is_kept};

// Gives the slot the stamp of the token, if there is a token. Fails if memory runs out.
fn insert_stamp(
    stamps: &mut KeyedSlots<(Pid, u64)>,
    token: &Option<Token>,
    slot: usize,
) -> Result<(), AllocError>
    ensures inserted { OnOk result (is_kept stamps.old ≡ true → (from : Pid) (this s : ℕ)
        → has_key pid_count_cmp stamps.new (from, this) s
        ≡ (bears_stamp from this token.now && slot == s
        || has_key pid_count_cmp stamps.old (from, this) s)) }
    ensures kept { is_kept stamps.new ≡ is_kept stamps.old }
{
    if let Some(token) = token {
        stamps.insert((token.from, token.serial.this), slot)?;
    }
    Ok(())
}

// Takes the stamp of the token from the slot, if there is a token.
fn remove_stamp(stamps: &mut KeyedSlots<(Pid, u64)>, token: &Option<Token>, slot: usize)
    ensures removed { (from : Pid) (this s : ℕ) → has_key pid_count_cmp stamps.new (from, this) s
        ≡ (not (bears_stamp from this token.now && slot == s)
        && has_key pid_count_cmp stamps.old (from, this) s) }
    ensures kept { is_kept stamps.new ≡ is_kept stamps.old }
{
    if let Some(token) = token {
        stamps.remove((token.from, token.serial.this), slot);
    }
}
