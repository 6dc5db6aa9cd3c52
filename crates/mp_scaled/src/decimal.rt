//! Decimal digits.

ghost use Rattle.std.specs.Prelude.{◌≡◌, ◌↔◌, ◌≤◌, ◌<◌, ◌*◌, All, IsErr, IfSome, length, min};
ghost use Rattle.std.specs.List.{position};
ghost use Rattle.std.specs.Char.{IsAsciiDigit};
ghost use Rattle.mp_scaled.specs.Decimal.{is_point, worth_of, whole_digits, fraction_digits, with_digit, whole_of, worth_with, fraction_of, units_of, decimal_of};
ghost use Rattle.mp_scaled.specs.declared.decimal.TheConstants.{WHOLE_LIMIT};
ghost use Rattle.mp_scaled.specs.declared.units.TheConstants.{SCALED_ONE, MAGNITUDE_LIMIT};

use crate::{MAGNITUDE_LIMIT, SCALED_ONE};

/// A decimal of 2^31 units or more.
#[derive(Clone, Copy, Debug, PartialEq, Eq)]
pub struct TooLarge;

/// The byte between the whole part of a decimal and its fraction.
pub const POINT: u8 = b'.';

/// The byte before the digits of a number that is negative.
pub const MINUS: u8 = b'-';

/// The first of the ten digits.
pub const DIGIT_ZERO: u8 = b'0';

/// Digits of a fraction after this many are ignored.
pub const FRACTION_DIGITS: usize = 17;

/// The first whole part that is too large.
const WHOLE_LIMIT: u32 = MAGNITUDE_LIMIT / SCALED_ONE;

/// The scaled number that decimal digits write, with at most one point among them, before, after or between
/// the digits. No digits before the point write 0, and none after it a fraction of 0.
///
/// `TooLarge` where it would be 2^31 units or more.
pub fn read_decimal(text: &[u8]) -> Result<i32, TooLarge>
    requires whole { All IsAsciiDigit (whole_digits text.now) }
    requires fraction { All IsAsciiDigit (fraction_digits text.now) }
    ensures exact { result ≡ decimal_of text.now }
    ensures refused { IsErr result ↔ (MAGNITUDE_LIMIT ≤ units_of text.now) }
{
    let (whole, fraction) = split_at_point(text);
    let units = read_whole(whole) * SCALED_ONE + read_fraction(fraction);
    if units < MAGNITUDE_LIMIT {
        Ok(units as i32)
    } else {
        Err(TooLarge)
    }
}

pub(crate) fn split_at_point(text: &[u8]) -> (&[u8], &[u8])
    ensures whole { result.0.now ≡ whole_digits text.now }
    ensures fraction { result.1.now ≡ fraction_digits text.now }
{
    match point_index(text) {
        Some(point) => (&text[..point], &text[point + 1..]),
        None => (text, &[]),
    }
}

fn point_index(text: &[u8]) -> Option<usize>
    ensures index { result ≡ position is_point text.now }
    ensures inside { IfSome result (λ point. point < length text.now) }
{
    text.iter().position(|&c| c == POINT)
}

// The whole number that the digits write, or the limit where it is larger.
fn read_whole(digits: &[u8]) -> u32
    requires { All IsAsciiDigit digits.now }
    ensures { result ≡ min (whole_of digits.now) WHOLE_LIMIT }
{
    let mut whole = 0;
    for c in digits {
        whole = next_whole(whole, *c);
    }
    whole
}

fn next_whole(whole: u32, c: u8) -> u32
    requires capped { whole ≤ WHOLE_LIMIT }
    requires digit { IsAsciiDigit c }
    ensures { result ≡ min (with_digit whole c) WHOLE_LIMIT }
{
    (whole * 10 + u32::from(c - DIGIT_ZERO)).min(WHOLE_LIMIT)
}

fn read_fraction(digits: &[u8]) -> u32
    requires { All IsAsciiDigit digits.now }
    ensures value { result ≡ fraction_of digits.now }
    ensures bound { result ≤ SCALED_ONE }
{
    let counted = FRACTION_DIGITS.min(digits.len());
    (worth(&digits[..counted]) + 1) / 2
}

// What the digits after a point are worth, in units of 2^-17.
fn worth(digits: &[u8]) -> u32
    requires { All IsAsciiDigit digits.now }
    ensures value { result ≡ worth_of digits.now }
    ensures bound { result ≤ 2 * SCALED_ONE }
{
    let mut worth = 0;
    let mut i = digits.len();
    while i > 0 {
        i -= 1;
        worth = worth_before(worth, digits[i]);
    }
    worth
}

fn worth_before(worth: u32, c: u8) -> u32
    requires capped { worth ≤ 2 * SCALED_ONE }
    requires digit { IsAsciiDigit c }
    ensures value { result ≡ worth_with worth c }
    ensures bound { result ≤ 2 * SCALED_ONE }
{
    (worth + 2 * SCALED_ONE * u32::from(c - DIGIT_ZERO)) / 10
}
