//! The marks of one block, which a search reads one by one.

ghost use Rattle.std.specs.Prelude.{◌≡◌, ◌<◌, length, take, slice_index_or};
ghost use Rattle.std.specs.List.{sum};
ghost use Rattle.st_arena.specs.Blocks.{AreMarks};

/// The number of slots that a leaf of the tree counts: as many as a line of the processor's cache
/// has bytes. So a search waits for memory once in a block, and the tree stays small.
pub(crate) const BLOCK: usize = 64;

pub(crate) fn count(marks: &[u8]) -> u64
    requires { AreMarks marks.now }
    ensures { result ≡ sum marks.now }
{
    let mut live = 0;
    for mark in marks {
        live += u64::from(*mark);
    }
    live
}

/// Returns the place of the live slot that has `wanted` live slots before it.
pub(crate) fn place_of(marks: &[u8], wanted: u64) -> usize
    requires marks { AreMarks marks.now }
    requires there { wanted < sum marks.now }
    ensures in_range { result < length marks.now }
    ensures live { slice_index_or marks.now result 0 ≡ 1 }
    ensures rank { sum (take result marks.now) ≡ wanted }
{
    let mut left = wanted;
    let mut place = 0;
    while u64::from(marks[place]) <= left {
        left -= u64::from(marks[place]);
        place += 1;
    }
    place
}
