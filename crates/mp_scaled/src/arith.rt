//! Rounded products and quotients.

ghost use Rattle.std.specs.Prelude.{◌≡◌, ◌≢◌, ◌↔◌, ◌≤◌, ◌<◌, ◌^◌, pos, ◌*ℤ◌, unsigned_abs, IsErrOf};
ghost use Rattle.mp_scaled.specs.Round.{rounded_quotient, round, in_range, signed_of, make_scaled_of, make_fraction_of, take_scaled_of, take_fraction_of};
ghost use Rattle.mp_scaled.specs.declared.units.TheConstants.{SCALED_ONE, FRACTION_ONE, MAGNITUDE_LIMIT};

use crate::{FRACTION_ONE, MAGNITUDE_LIMIT, SCALED_ONE};
use thiserror::Error;

/// Why a product or a quotient has no value.
#[derive(Clone, Copy, Debug, PartialEq, Eq, Drop, Error)]
pub enum Arith {
    /// The rounded magnitude is 2^31 or more.
    #[error("overflow")]
    Overflow,
    /// The divisor is 0.
    #[error("division by zero")]
    DivisionByZero,
}

/// `2^28 p/q`, rounded to the nearest, a half away from zero.
pub fn make_fraction(p: i64, q: i64) -> Result<i32, Arith>
    requires small_p { unsigned_abs p < 2 ^ 62 }
    requires small_q { unsigned_abs q < 2 ^ 62 }
    ensures exact { result ≡ make_fraction_of p q }
    ensures zero { IsErrOf result Arith.DivisionByZero ↔ (q ≡ pos 0) }
    ensures overflow { IsErrOf result Arith.Overflow ↔
        ((q ≢ pos 0) × (MAGNITUDE_LIMIT ≤ unsigned_abs (round (p *ℤ pos FRACTION_ONE) q))) }
{
    if q == 0 {
        return Err(Arith::DivisionByZero);
    }
    let magnitude = rounded(
        u128::from(p.unsigned_abs()) * u128::from(FRACTION_ONE),
        u128::from(q.unsigned_abs()),
    );
    signed((p < 0) != (q < 0), magnitude)
}

/// `2^16 p/q`, rounded to the nearest, a half away from zero.
pub fn make_scaled(p: i64, q: i64) -> Result<i32, Arith>
    requires small_p { unsigned_abs p < 2 ^ 62 }
    requires small_q { unsigned_abs q < 2 ^ 62 }
    ensures exact { result ≡ make_scaled_of p q }
    ensures zero { IsErrOf result Arith.DivisionByZero ↔ (q ≡ pos 0) }
    ensures overflow { IsErrOf result Arith.Overflow ↔
        ((q ≢ pos 0) × (MAGNITUDE_LIMIT ≤ unsigned_abs (round (p *ℤ pos SCALED_ONE) q))) }
{
    if q == 0 {
        return Err(Arith::DivisionByZero);
    }
    let magnitude = rounded(
        u128::from(p.unsigned_abs()) * u128::from(SCALED_ONE),
        u128::from(q.unsigned_abs()),
    );
    signed((p < 0) != (q < 0), magnitude)
}

/// `q f/2^28`, rounded to the nearest, a half away from zero; never `DivisionByZero`.
pub fn take_fraction(q: i64, f: i64) -> Result<i32, Arith>
    requires small_q { unsigned_abs q < 2 ^ 62 }
    requires small_f { unsigned_abs f < 2 ^ 62 }
    ensures exact { result ≡ take_fraction_of q f }
    ensures overflow { IsErrOf result Arith.Overflow ↔
        (MAGNITUDE_LIMIT ≤ unsigned_abs (round (q *ℤ f) (pos FRACTION_ONE))) }
{
    let magnitude = rounded(
        u128::from(q.unsigned_abs()) * u128::from(f.unsigned_abs()),
        u128::from(FRACTION_ONE),
    );
    signed((q < 0) != (f < 0), magnitude)
}

/// `q f/2^16`, rounded to the nearest, a half away from zero; never `DivisionByZero`.
pub fn take_scaled(q: i64, f: i64) -> Result<i32, Arith>
    requires small_q { unsigned_abs q < 2 ^ 62 }
    requires small_f { unsigned_abs f < 2 ^ 62 }
    ensures exact { result ≡ take_scaled_of q f }
    ensures overflow { IsErrOf result Arith.Overflow ↔
        (MAGNITUDE_LIMIT ≤ unsigned_abs (round (q *ℤ f) (pos SCALED_ONE))) }
{
    let magnitude = rounded(
        u128::from(q.unsigned_abs()) * u128::from(f.unsigned_abs()),
        u128::from(SCALED_ONE),
    );
    signed((q < 0) != (f < 0), magnitude)
}

fn rounded(a: u128, b: u128) -> u128
    requires nonzero { 0 < b }
    requires small_a { a < 2 ^ 125 }
    requires small_b { b < 2 ^ 125 }
    ensures { result ≡ rounded_quotient a b }
{
    (2 * a + b) / (2 * b)
}

fn signed(negative: bool, magnitude: u128) -> Result<i32, Arith>
    ensures { result ≡ in_range (signed_of negative magnitude) }
{
    if magnitude >= u128::from(MAGNITUDE_LIMIT) {
        return Err(Arith::Overflow);
    }
    let value = magnitude as i64;
    Ok((if negative { -value } else { value }) as i32)
}
