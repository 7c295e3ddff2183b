//! The marks of all blocks, and the tree that counts them.

ghost use Rattle.std.specs.Prelude.{◌≡◌, ◌+◌, ◌-◌, ◌/◌, ◌%◌, ◌^◌, ◌<◌, ◌≤◌, ◌∷◌, ◌++◌, IfOk};
ghost use Rattle.std.specs.Prelude.{length, replicate, take, slice_set, slice_index_or};
ghost use Rattle.std.specs.List.{sum};
ghost use Rattle.st_arena.specs.Blocks.{AreCounted, CountsFirst};
ghost use Rattle.st_arena.specs.Tree.{wide, IsTree};

use crate::block::{BLOCK, count, place_of};
use crate::tree::{add_up, count_down, count_up, rank_in, select_in};
use std::alloc::{AllocError, Global};

/// Makes the marks of `slots` slots, the first `live` of them live.
pub(crate) fn new_marks(alloc: Global, slots: usize, live: usize) -> Result<Vec<u8>, AllocError>
    requires { live ≤ slots }
    ensures { IfOk result (λ marks. marks.items
        ≡ replicate live 1 ++ replicate (slots - live) 0) }
{
    let mut marks = Vec::with_capacity(alloc, slots)?;
    marks.resize(live, 1)?;
    marks.resize(slots, 0)?;
    Ok(marks)
}

/// Makes the list of a new tree's nodes: 0 for each node above the leaves, and then the leaves.
fn new_leaves(alloc: Global, size: usize, live: usize) -> Result<Vec<u64>, AllocError>
    requires few { size ≤ 2 ^ 53 }
    requires within { live / 64 < size }
    ensures { IfOk result (λ counts. counts.items ≡ replicate size 0 ++ (replicate (live / 64) 64
        ++ live % 64 ∷ replicate (size - live / 64 - 1) 0)) }
{
    let mut counts = Vec::with_capacity(alloc, size + size)?;
    counts.resize(size, 0)?;
    counts.resize(size + live / BLOCK, BLOCK as u64)?;
    counts.push((live % BLOCK) as u64)?;
    counts.resize(size + size, 0)?;
    Ok(counts)
}

/// Makes the tree over `size` blocks, if the first `live` slots are live.
pub(crate) fn new_counts(
    alloc: Global,
    size: usize,
    height: usize,
    live: usize,
) -> Result<Vec<u64>, AllocError>
    requires size { size ≡ wide height }
    requires few { size ≤ 2 ^ 53 }
    requires within { live / 64 < size }
    ensures tree { IfOk result (λ counts. IsTree counts.items height) }
    ensures leaves { IfOk result (λ counts. CountsFirst counts.items size live) }
{
    let mut counts = new_leaves(alloc, size, live)?;
    add_up(&mut counts, size, height);
    Ok(counts)
}

/// Returns how many live slots are before `slot`.
pub(crate) fn live_before(
    marks: &[u8],
    counts: &[u64],
    size: usize,
    height: usize,
    slot: usize,
) -> u64
    requires counted { AreCounted marks.now counts.now height }
    requires size { size ≡ wide height }
    requires in_range { slot < length marks.now }
    ensures { result ≡ sum (take slot marks.now) }
{
    let block = slot / BLOCK;
    rank_in(counts, size, height, block) + count(&marks[block * BLOCK..slot])
}

/// Returns the live slot that has `wanted` live slots before it.
pub(crate) fn live_slot(
    marks: &[u8],
    counts: &[u64],
    size: usize,
    height: usize,
    wanted: u64,
) -> usize
    requires counted { AreCounted marks.now counts.now height }
    requires size { size ≡ wide height }
    requires there { wanted < sum marks.now }
    ensures in_range { result < length marks.now }
    ensures live { slice_index_or marks.now result 0 ≡ 1 }
    ensures rank { sum (take result marks.now) ≡ wanted }
{
    // Reads the length: only then is it known to be a `usize`, so that the sum below fits.
    let _slot_count = marks.len();
    let (block, left) = select_in(counts, size, height, wanted);
    let start = block * BLOCK;
    start + place_of(&marks[start..start + BLOCK], left)
}

/// Marks a dead slot live.
pub(crate) fn set_live(
    marks: &mut [u8],
    counts: &mut [u64],
    size: usize,
    height: usize,
    slot: usize,
)
    requires counted { AreCounted marks.old counts.old height }
    requires size { size ≡ wide height }
    requires in_range { slot < length marks.old }
    requires dead { slice_index_or marks.old slot 0 ≡ 0 }
    ensures marks { marks.new ≡ slice_set marks.old slot 1 }
    ensures counted { AreCounted marks.new counts.new height }
{
    marks[slot] = 1;
    count_up(counts, size, height, slot / BLOCK);
}

/// Marks a live slot dead.
pub(crate) fn set_dead(
    marks: &mut [u8],
    counts: &mut [u64],
    size: usize,
    height: usize,
    slot: usize,
)
    requires counted { AreCounted marks.old counts.old height }
    requires size { size ≡ wide height }
    requires in_range { slot < length marks.old }
    requires live { slice_index_or marks.old slot 0 ≡ 1 }
    ensures marks { marks.new ≡ slice_set marks.old slot 0 }
    ensures counted { AreCounted marks.new counts.new height }
{
    marks[slot] = 0;
    count_down(counts, size, height, slot / BLOCK);
}
