//! Lists with a number at each place.

ghost use Rattle.std.specs.Prelude.{◌≡◌, slice_get, slice_set};
ghost use Rattle.std.specs.Option.{unwrap_or};

/// Returns the number at a place, 0 past the end.
pub(crate) fn number_at(numbers: &[u64], place: usize) -> u64
    ensures { result ≡ unwrap_or (slice_get numbers.now place) 0 }
{
    numbers.get(place).copied().unwrap_or(0)
}

/// Puts a number at a place, if the list has that place.
pub(crate) fn put(numbers: &mut Vec<u64>, place: usize, number: u64)
    ensures { numbers.new.items ≡ slice_set numbers.old.items place number }
{
    if place < numbers.len() {
        numbers[place] = number;
    }
}
