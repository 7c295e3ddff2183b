//! Counts of a node: a counter has 64 bits, and a serial shows the lowest 60 of them.

ghost use Rattle.std.specs.Prelude.{◌≡◌, ◌<◌, ◌^◌, option_map};
ghost use Rattle.node_machine.specs.Counts.{answer_count, next_clock, node_token, serial_count};
ghost use Rattle.node_machine.specs.Counts.{stamp_count};

use st_core::{Serial, Token};

/// The least number that a serial can't show.
const SERIAL_END: u64 = 1 << 60;

/// Returns the part of a number that a serial shows.
pub(crate) fn shown(number: u64) -> u64
    ensures value { result ≡ serial_count number }
    ensures below { result < 2 ^ 60 }
{
    number % SERIAL_END
}

pub(crate) fn clock_after(clock: u64) -> u64
    ensures { result ≡ next_clock clock }
{
    clock.wrapping_add(1)
}

pub(crate) fn count_after(clock: u64) -> u64
    ensures { result ≡ stamp_count clock }
{
    clock.wrapping_add(1) % SERIAL_END
}

/// Returns the count that the answer to a spawn leaves, if its serial shows `this`.
pub(crate) fn answer_count(this: u64) -> u64
    requires { this < 2 ^ 60 }
    ensures { result ≡ answer_count this }
{
    16 * this + 15
}

/// Returns a token as a node holds it.
pub(crate) fn held(token: Token) -> Token
    ensures { result ≡ node_token token }
{
    Token {
        serial: Serial {
            prev: shown(token.serial.prev),
            this: shown(token.serial.this),
        },
        ..token
    }
}

pub(crate) fn held_if_any(token: Option<Token>) -> Option<Token>
    ensures { result ≡ option_map node_token token }
{
    match token {
        Some(token) => Some(held(token)),
        None => None,
    }
}
