//! Printed numbers.

ghost use Rattle.std.specs.Prelude.{ℕ, pos, Ok, ◌≡◌, ◌+◌, ◌*◌, ◌<◌, ◌≤◌, ◌^◌, [], ◌∷◌, ◌++◌, if◌then◌else◌, decimal, take, drop, unsigned_abs};
ghost use Rattle.mp_scaled.specs.Decimal.{decimal_of};
ghost use Rattle.mp_scaled.specs.Print.{rounded_last, digits_within, printed_fraction, printed};
ghost use Rattle.mp_scaled.specs.declared.decimal.TheConstants.{MINUS};
ghost use Rattle.mp_scaled.specs.declared.units.TheConstants.{SCALED_ONE, MAGNITUDE_LIMIT};

use crate::{DIGIT_ZERO, MINUS, POINT, SCALED_ONE};
use itoa::Buffer;

/// Writes a number of units of 2^-16 in decimal, and says how many bytes it took; those behind them stay. What is
/// written of a number that is not negative reads back as that number ([`printed_reads_back`]).
pub fn print_scaled(value: i64, to: &mut [u8; 16]) -> usize
    requires { unsigned_abs value ≤ 2 ^ 32 }
    ensures text { take result to.new ≡ printed value }
    ensures short { result ≤ 16 }
    ensures rest { drop result to.new ≡ drop result to.old }
{
    let magnitude = value.unsigned_abs();
    let sign_end = put_sign(value < 0, to);
    let whole_end = put_whole((magnitude / u64::from(SCALED_ONE)) as u32, sign_end, to);
    put_fraction((magnitude % u64::from(SCALED_ONE)) as u32, whole_end, to)
}

/// A law: what is printed of a scaled number that is not negative reads back as that same number.
pub fn printed_reads_back()
    ensures { (units : ℕ) → units < MAGNITUDE_LIMIT → decimal_of (printed (pos units)) ≡ Ok (pos units) }
{}

fn put_sign(negative: bool, to: &mut [u8; 16]) -> usize
    ensures text { take result to.new ≡ (if negative then MINUS ∷ [] else []) }
    ensures short { result ≤ 1 }
    ensures rest { drop result to.new ≡ drop result to.old }
{
    if negative {
        to[0] = MINUS;
        1
    } else {
        0
    }
}

fn put_whole(whole: u32, at: usize, to: &mut [u8; 16]) -> usize
    requires small { whole < 10 ^ 5 }
    requires room { at ≤ 1 }
    ensures text { take result to.new ≡ take at to.old ++ decimal whole }
    ensures short { result ≤ at + 5 }
    ensures further { at ≤ result }
    ensures rest { drop result to.new ≡ drop result to.old }
{
    let mut buffer = Buffer::new();
    let digits = buffer.format(whole).as_bytes();
    let end = at + digits.len();
    to[at..end].copy_from_slice(digits);
    end
}

fn put_fraction(units: u32, at: usize, to: &mut [u8; 16]) -> usize
    requires below_one { units < SCALED_ONE }
    requires room { at ≤ 6 }
    ensures text { take result to.new ≡ take at to.old ++ printed_fraction units }
    ensures short { result ≤ at + 6 }
    ensures further { at ≤ result }
    ensures rest { drop result to.new ≡ drop result to.old }
{
    if units == 0 {
        return at;
    }
    to[at] = POINT;
    put_digits(units, at + 1, to)
}

fn put_digits(units: u32, at: usize, to: &mut [u8; 16]) -> usize
    requires below_one { units < SCALED_ONE }
    requires not_whole { 0 < units }
    requires room { at ≤ 7 }
    ensures text { take result to.new ≡ take at to.old ++ digits_within 5 (10 * units + 5) 10 }
    ensures short { result ≤ at + 5 }
    ensures further { at ≤ result }
    ensures rest { drop result to.new ≡ drop result to.old }
{
    let mut s = 10 * units + 5;
    let mut delta = 10;
    'digits: for place in at..at + 5 {
        s = rounded(s, delta);
        to[place] = DIGIT_ZERO + (s / SCALED_ONE) as u8;
        s = 10 * (s % SCALED_ONE);
        delta *= 10;
        if s <= delta {
            return place + 1;
        }
    }
    at + 5
}

// What the next digit is taken from.
fn rounded(s: u32, delta: u32) -> u32
    requires left { delta < s }
    requires small { s < 10 * SCALED_ONE }
    ensures value { result ≡ rounded_last s delta }
    ensures small { result < 10 * SCALED_ONE }
{
    if delta > SCALED_ONE {
        s + SCALED_ONE / 2 - delta / 2
    } else {
        s
    }
}
