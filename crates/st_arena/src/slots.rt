//! Slots that are live or dead, which contracts see as a list of ones and zeros.

use crate::block::BLOCK;
use crate::blocks::{live_before, live_slot, new_counts, new_marks, set_dead, set_live};
use crate::tree::count_live;
use std::alloc::{AllocError, Global};
use std::marker::Model;

/// The greatest number of slots that `new` accepts: rounding it up doesn't overflow.
const MOST_SLOTS: usize = usize::MAX / BLOCK;

/// A fixed number of slots, each live or dead.
///
/// A contract sees the slots' marks: 1 for a live slot, 0 for a dead one. The rank of a slot is
/// the sum of the marks before it.
#[derive(Drop)]
pub struct Ranks {
    marks: Vec<u8>,
    counts: Vec<u64>,
    size: usize,
    height: usize,
}

impl Model for Ranks {
    ghost use Rattle.std.specs.Prelude.{◌≡◌, ℕ, List};
    ghost use Rattle.st_arena.specs.Blocks.{AreCounted};
    ghost use Rattle.st_arena.specs.Tree.{wide};

    ghost Value = { List ℕ };

    ghost view = { λ r. r.marks.items };

    ghost invariant = { λ r.
        AreCounted r.marks.items r.counts.items r.height × (r.size ≡ wide r.height) };
}

impl Ranks {
    ghost use Rattle.std.specs.Prelude.{◌≡◌, ◌-◌, ◌<◌, ◌≤◌, ◌++◌, length, take, replicate};
    ghost use Rattle.std.specs.Prelude.{slice_set, slice_index_or, true, false, IfOk, IfSome};
    ghost use Rattle.std.specs.Prelude.{IfNone};
    ghost use Rattle.std.specs.List.{sum};

    /// Makes at least `slots` slots, of which the first `live` are live: blocks of 64, and as many
    /// blocks as a power of two. Fails if memory runs out or `slots` is above `usize::MAX / 64`.
    pub fn new(alloc: Global, slots: usize, live: usize) -> Result<Ranks, AllocError>
        requires within { live ≤ slots }
        ensures marks { IfOk result (λ ranks.
            ranks ≡ replicate live 1 ++ replicate (length ranks - live) 0) }
        ensures room { IfOk result (λ ranks. slots ≤ length ranks) }
    {
        if slots > MOST_SLOTS {
            return Err(AllocError);
        }
        let (size, height) = size_over(slots / BLOCK + 1);
        let marks = new_marks(alloc, size * BLOCK, live)?;
        let counts = new_counts(alloc, size, height, live)?;
        Ok(Ranks {
            marks,
            counts,
            size,
            height,
        })
    }

    /// Returns how many slots there are, live and dead.
    pub fn len(&self) -> usize
        ensures { result ≡ length self.now }
    {
        self.marks.len()
    }

    /// Returns how many slots are live.
    pub fn live(&self) -> u64
        ensures { result ≡ sum self.now }
    {
        count_live(&self.counts, self.height)
    }

    /// Returns how many live slots are before `slot`.
    pub fn rank(&self, slot: usize) -> u64
        requires { slot < length self.now }
        ensures { result ≡ sum (take slot self.now) }
    {
        live_before(&self.marks, &self.counts, self.size, self.height, slot)
    }

    /// Returns the live slot that has `rank` live slots before it, if there is one.
    pub fn select(&self, rank: u64) -> Option<usize>
        ensures in_range { IfSome result (λ slot. slot < length self.now) }
        ensures live { IfSome result (λ slot. slice_index_or self.now slot 0 ≡ 1) }
        ensures rank { IfSome result (λ slot. sum (take slot self.now) ≡ rank) }
        ensures absent { IfNone result (sum self.now ≤ rank) }
    {
        if rank >= self.live() {
            return None;
        }
        Some(live_slot(&self.marks, &self.counts, self.size, self.height, rank))
    }

    /// Marks a dead slot live.
    pub fn mark_live(&mut self, slot: usize)
        requires in_range { slot < length self.old }
        requires dead { slice_index_or self.old slot 0 ≡ 0 }
        ensures { self.new ≡ slice_set self.old slot 1 }
    {
        set_live(
            &mut self.marks,
            &mut self.counts,
            self.size,
            self.height,
            slot,
        );
    }

    /// Marks a live slot dead.
    pub fn mark_dead(&mut self, slot: usize)
        requires in_range { slot < length self.old }
        requires live { slice_index_or self.old slot 0 ≡ 1 }
        ensures { self.new ≡ slice_set self.old slot 0 }
    {
        set_dead(
            &mut self.marks,
            &mut self.counts,
            self.size,
            self.height,
            slot,
        );
    }
}

ghost use Rattle.std.specs.Prelude.{◌≡◌, ◌+◌, ◌≤◌, ◌^◌};
ghost use Rattle.st_arena.specs.Tree.{wide};

// Returns the size of the least tree over `blocks` blocks, and its height.
fn size_over(blocks: usize) -> (usize, usize)
    requires few { blocks ≤ 2 ^ 52 + 1 }
    ensures room { blocks ≤ result.0 }
    ensures bound { result.0 ≤ 2 ^ 53 }
    ensures wide { result.0 ≡ wide result.1 }
{
    let mut size = 1;
    let mut height = 0;
    while size < blocks {
        size += size;
        height += 1;
    }
    (size, height)
}
