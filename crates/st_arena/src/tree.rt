//! The tree of counts: node 1 is the root, node k has the children 2k and 2k + 1, and each leaf
//! counts the live slots of one block.

ghost use Rattle.std.specs.Prelude.{◌≡◌, ◌+◌, ◌<◌, ◌≤◌, ◌^◌, ℕ, length, drop, true};
ghost use Rattle.std.specs.Prelude.{false};
ghost use Rattle.st_arena.specs.Tree.{count_at, sums, wide, IsTree, CountsLess, CountsMore};

pub(crate) fn count_live(counts: &[u64], height: usize) -> u64
    requires tree { IsTree counts.now height }
    ensures { result ≡ count_at counts.now 1 }
{
    counts[1]
}

/// Returns how many slots are live in the blocks before `block`.
#[tactic(auto, using(crate::proofs::TreeLemmas::within))]
pub(crate) fn rank_in(counts: &[u64], size: usize, height: usize, block: usize) -> u64
    requires tree { IsTree counts.now height }
    requires size { size ≡ wide height }
    requires in_range { block < size }
    ensures { result ≡ sums (count_at counts.now) size block }
{
    // Reads the length: only then is it known to be a `usize`, so that the sums below fit.
    let _node_count = counts.len();
    let mut sum = 0;
    let mut start = size;
    let mut place = block;
    let mut level = height;
    while level > 0 {
        if place % 2 == 1 {
            sum += counts[start + place - 1];
        }
        place /= 2;
        start /= 2;
        level -= 1;
    }
    sum
}

/// Returns the block of the live slot that has `wanted` live slots before it, and how many of them
/// are in the block.
pub(crate) fn select_in(counts: &[u64], size: usize, height: usize, wanted: u64) -> (usize, u64)
    requires tree { IsTree counts.now height }
    requires size { size ≡ wide height }
    requires there { wanted < count_at counts.now 1 }
    ensures in_range { result.0 < size }
    ensures before { sums (count_at counts.now) size result.0 + result.1 ≡ wanted }
    ensures inside { result.1 < count_at counts.now (size + result.0) }
{
    let mut left = wanted;
    let mut start = 1;
    let mut place = 0;
    let mut level = 0;
    while level < height {
        start += start;
        place += place;
        let lesser = counts[start + place];
        if left >= lesser {
            left -= lesser;
            place += 1;
        }
        level += 1;
    }
    (place, left)
}

/// Subtracts 1 from the live slots of a block, in its leaf and all nodes above.
pub(crate) fn count_down(counts: &mut [u64], size: usize, height: usize, block: usize)
    requires tree { IsTree counts.old height }
    requires size { size ≡ wide height }
    requires in_range { block < size }
    requires live { 0 < count_at counts.old (size + block) }
    ensures tree { IsTree counts.new height }
    ensures len { length counts.new ≡ length counts.old }
    ensures less { CountsLess counts.old counts.new size block }
{
    let mut node = size + block;
    while node > 0 {
        counts[node] -= 1;
        node /= 2;
    }
}

/// Adds 1 to the live slots of a block, in its leaf and all nodes above.
pub(crate) fn count_up(counts: &mut [u64], size: usize, height: usize, block: usize)
    requires tree { IsTree counts.old height }
    requires size { size ≡ wide height }
    requires in_range { block < size }
    requires room { count_at counts.old (size + block) < 64 }
    ensures tree { IsTree counts.new height }
    ensures len { length counts.new ≡ length counts.old }
    ensures more { CountsMore counts.old counts.new size block }
{
    let mut node = size + block;
    while node > 0 {
        counts[node] += 1;
        node /= 2;
    }
}

/// Writes into each inner node the sum of its children's counts.
pub(crate) fn add_up(counts: &mut [u64], size: usize, height: usize)
    requires len { length counts.old ≡ size + size }
    requires size { size ≡ wide height }
    requires few { size ≤ 2 ^ 53 }
    requires leaves { (leaf : ℕ) → leaf < size → count_at counts.old (size + leaf) ≤ 64 }
    ensures tree { IsTree counts.new height }
    ensures leaves_stay { drop size counts.new ≡ drop size counts.old }
{
    let mut node = size;
    while node > 1 {
        node -= 1;
        counts[node] = counts[node + node] + counts[node + node + 1];
    }
}
