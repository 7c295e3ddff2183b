//! Reads decimal numbers: digits without a leading zero, up to the limit of their place. Every
//! number of a text is read here.

ghost use Rattle.std.specs.Prelude.{◌≡◌, ◌≤◌, ◌<◌, ◌+◌, ◌*◌, ◌^◌, ◌∷◌, ℕ, List, IfSome};
ghost use Rattle.std.specs.Prelude.{MatchOption};
ghost use Rattle.std.specs.Option.{SomeIff};
ghost use Rattle.std.specs.Char.{is_ascii_digit};
ghost use Rattle.std.specs.List.{prefix_len};
ghost use Rattle.st_text.specs.Parts.Digits.{HasRead};
ghost use Rattle.st_text.specs.Parts.Words.{Gives};
ghost use Rattle.st_text.specs.Parsing.{number};

/// The number below which any number has room for another digit.
const FITS_BELOW: u64 = u64::MAX / 10;

/// The most digits that follow the first in most numbers. If at least `FEW` bytes are left, the
/// compiler drops the tests for the end of the bytes and for a number that is too great.
const FEW: usize = 4;

/// Appends a digit to a number, if the result is at most `u64::MAX`.
#[inline(always)]
fn with_digit(n: u64, digit: u8) -> Option<u64>
    requires { digit < 10 }
    ensures { SomeIff result (n * 10 + digit < 2 ^ 64) (n * 10 + digit) }
{
    if n < FITS_BELOW {
        return Some(n * 10 + u64::from(digit));
    }
    n.checked_mul(10)?.checked_add(u64::from(digit))
}

/// Returns the value of the digit that the bytes begin with, and the bytes after it.
#[inline(always)]
fn digit_at(bytes: &[u8]) -> Option<(u8, &[u8])>
    ensures { MatchOption result (prefix_len is_ascii_digit bytes.now ≡ 0)
        (λ x. (x.0 < 10) × (bytes.now ≡ (48 + x.0) ∷ x.1.now)) }
{
    match bytes {
        [digit @ b'0'..=b'9', rest @ ..] => Some((*digit - b'0', rest)),
        _ => None,
    }
}

/// Returns `n` and the rest of the bytes, if `n` is at most `most`.
#[inline(always)]
fn at_most(most: u64, n: u64, rest: &[u8]) -> Option<(u64, &[u8])>
    requires { prefix_len is_ascii_digit rest.now ≡ 0 }
    ensures exact { (bytes : List ℕ) → HasRead bytes rest.now n →
        Gives (λ x. (x.0, x.1.now)) result (number most bytes) }
    ensures bound { IfSome result (λ x. x.0 ≤ most) }
{
    if n > most {
        return None;
    }
    Some((n, rest))
}

/// Reads the rest of a number that is `n` so far, and returns the number, if it is at most `most`,
/// and the bytes after it.
#[inline(always)]
fn more_digits(most: u64, n: u64, bytes: &[u8]) -> Option<(u64, &[u8])>
    ensures exact { (all : List ℕ) → HasRead all bytes.now n →
        Gives (λ x. (x.0, x.1.now)) result (number most all) }
    ensures bound { IfSome result (λ x. x.0 ≤ most) }
{
    let mut n = n;
    let mut rest = bytes;
    while let Some((digit, more)) = digit_at(rest) {
        n = with_digit(n, digit)?;
        rest = more;
    }
    at_most(most, n, rest)
}

/// Does what `more_digits` does, in fewer steps if at least `FEW` bytes are left.
#[inline(always)]
fn few_digits(most: u64, n: u64, bytes: &[u8]) -> Option<(u64, &[u8])>
    ensures exact { (all : List ℕ) → HasRead all bytes.now n →
        Gives (λ x. (x.0, x.1.now)) result (number most all) }
    ensures bound { IfSome result (λ x. x.0 ≤ most) }
{
    if bytes.len() < FEW {
        return more_digits(most, n, bytes);
    }
    let mut n = n;
    let mut rest = bytes;
    for _ in 0..FEW {
        let Some((digit, more)) = digit_at(rest) else {
            return at_most(most, n, rest);
        };
        n = with_digit(n, digit)?;
        rest = more;
    }
    more_digits(most, n, rest)
}

/// Reads the number at the front of the bytes, and returns it, if it is at most `most`, and the
/// bytes after it.
#[inline(always)]
pub(crate) fn number(most: u64, bytes: &[u8]) -> Option<(u64, &[u8])>
    ensures exact { Gives (λ x. (x.0, x.1.now)) result (number most bytes.now) }
    ensures bound { IfSome result (λ x. x.0 ≤ most) }
{
    let (first, after_first) = digit_at(bytes)?;
    if first == 0 {
        return match digit_at(after_first) {
            None => Some((0, after_first)),
            Some(_) => None,
        };
    }
    few_digits(most, u64::from(first), after_first)
}
