//! Indexes in half the memory.

ghost use Rattle.std.specs.Prelude.{◌≡◌, ◌-◌, ◌^◌, min};

/// Returns an index in half the memory, since a candidate has many. An index that doesn't fit
/// becomes a wrong one, and the judge refuses what comes of it.
pub(crate) fn short(index: usize) -> u32
    ensures { result ≡ min index (2 ^ 32 - 1) }
{
    index.min(u32::MAX as usize) as u32
}
