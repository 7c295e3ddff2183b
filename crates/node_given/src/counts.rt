//! Counts of a node: a counter has 64 bits, and a serial shows the lowest 60 of them.

ghost use Rattle.std.specs.Prelude.{◌≡◌, ◌<◌, ◌^◌, ◌==◌, ◌&&◌, if◌then◌else◌};
ghost use Rattle.node_machine.specs.Counts.{answer_count, next_clock, serial_count, stamp_count};
ghost use Rattle.node_machine.specs.Readings.{clock_put_back, is_next};

use node_machine::Seen;

/// The least number that a serial can't show.
const SERIAL_END: u64 = 1 << 60;

pub(crate) fn clock_after(clock: u64) -> u64
    ensures { result ≡ next_clock clock }
{
    clock.wrapping_add(1)
}

pub(crate) fn count_after(clock: u64) -> u64
    ensures { result ≡ stamp_count clock }
{
    clock.wrapping_add(1) % SERIAL_END
}

pub(crate) fn count_before(count: u64) -> u64
    requires { count < 2 ^ 60 }
    ensures fits { result < 2 ^ 60 }
    ensures next { stamp_count result ≡ count }
{
    if count == 0 {
        return SERIAL_END - 1;
    }
    count - 1
}

pub(crate) fn clock_of_answer(count: u64) -> u64
    requires { count < 2 ^ 60 }
    ensures { result ≡ answer_count count }
{
    16 * count + 15
}

pub(crate) fn last_of_answer(count: u64) -> u64
    requires { count < 2 ^ 60 }
    ensures { result ≡ serial_count (answer_count count) }
{
    clock_of_answer(count) % SERIAL_END
}

/// Returns the clock after a stamp, if a token was put back before it.
pub(crate) fn clock_after_put_back(stamp: Seen) -> u64
    ensures { result ≡ clock_put_back stamp }
{
    if stamp.serial.this == 0 {
        return SERIAL_END;
    }
    stamp.serial.this
}

pub(crate) fn goes_on(clock: u64, last: u64, stamp: Seen) -> bool
    ensures { result ≡ is_next clock last stamp }
{
    stamp.serial.this == count_after(clock) && stamp.serial.prev == last
}
