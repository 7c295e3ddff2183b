//! Counts of a node: a counter has 64 bits, and a serial shows the lowest 60 of them.

ghost use Rattle.std.specs.Prelude.{◌≡◌, ◌<◌, ◌^◌};
ghost use Rattle.node_machine.specs.Counts.{answer_count, serial_count, stamp_count};

/// The least number that a serial can't show.
const SERIAL_END: u64 = 1 << 60;

pub(crate) fn count_after(clock: u64) -> u64
    ensures { result ≡ stamp_count clock }
{
    clock.wrapping_add(1) % SERIAL_END
}

pub(crate) fn clock_of_answer(count: u64) -> u64
    requires { count < 2 ^ 60 }
    ensures { result ≡ answer_count count }
{
    16 * count + 15
}

pub(crate) fn last_of_answer(count: u64) -> u64
    requires { count < 2 ^ 60 }
    ensures { result ≡ serial_count (answer_count count) }
{
    clock_of_answer(count) % SERIAL_END
}
