//! What the numbers of a form are multiplied by.

ghost use Rattle.std.specs.Prelude.{◌≡◌, ◌≢◌, ◌<◌, ◌≤◌, ◌*◌, ◌^◌, pos, ◌*ℤ◌, unsigned_abs};
ghost use Rattle.mp_scaled.specs.Round.{round, rounded_quotient, signed_of};
ghost use Rattle.mp_pool.specs.Ratios.{ratio_times};

use mp_scaled::{FRACTION_ONE, SCALED_ONE};

/// A numerator over a denominator, of magnitude 2^16 at most.
#[derive(Clone, Copy)]
pub struct Ratio {
    /// The numerator.
    pub numerator: i64,
    /// The denominator.
    pub denominator: i64,
    ghost nonzero: { 0 < unsigned_abs denominator },
    ghost bounded: { unsigned_abs numerator ≤ 65536 * unsigned_abs denominator },
}

impl Ratio {
    /// A number in units of 2^-28.
    #[inline(always)]
    pub fn fraction(f: i64) -> Ratio
        requires { unsigned_abs f < 2 ^ 44 }
        ensures numerator { result.numerator ≡ f }
        ensures denominator { result.denominator ≡ pos 268435456 }
    {
        Ratio {
            numerator: f,
            denominator: i64::from(FRACTION_ONE),
        }
    }

    /// A number in units of 2^-16.
    #[inline(always)]
    pub fn scaled(s: i32) -> Ratio
        ensures numerator { result.numerator ≡ s }
        ensures denominator { result.denominator ≡ pos 65536 }
    {
        Ratio {
            numerator: i64::from(s),
            denominator: i64::from(SCALED_ONE),
        }
    }

    /// 1 over a number in units of 2^-16.
    #[inline(always)]
    pub fn over_scaled(s: i32) -> Ratio
        requires { s ≢ pos 0 }
        ensures numerator { result.numerator ≡ pos 65536 }
        ensures denominator { result.denominator ≡ s }
    {
        Ratio {
            numerator: i64::from(SCALED_ONE),
            denominator: i64::from(s),
        }
    }

    /// `n` times the ratio, rounded to the nearest, a half away from zero.
    #[inline(always)]
    #[tactic(auto, using(crate::proofs::RatioLemmas::rounded_bound))]
    pub fn times(self, n: i64) -> i64
        requires { unsigned_abs n < 2 ^ 44 }
        ensures exact { result ≡ ratio_times self.numerator self.denominator n }
        ensures bounded { unsigned_abs result ≤ 65536 * unsigned_abs n }
    {
        rounded(product(n, self.numerator), self.denominator)
    }
}

#[inline(always)]
fn product(a: i64, b: i64) -> i128
    ensures { result ≡ a *ℤ b }
{
    i128::from(a) * i128::from(b)
}

/// `a/b`, rounded to the nearest, a half away from zero.
#[inline(always)]
fn rounded(a: i128, b: i64) -> i64
    requires nonzero { 0 < unsigned_abs b }
    requires small { unsigned_abs a < 2 ^ 126 }
    requires fits { rounded_quotient (unsigned_abs a) (unsigned_abs b) < 2 ^ 63 }
    ensures exact { result ≡ round a b }
    ensures same { unsigned_abs result ≡ rounded_quotient (unsigned_abs a) (unsigned_abs b) }
{
    let magnitude = quotient(a.unsigned_abs(), u128::from(b.unsigned_abs()));
    signed((a < 0) != (b < 0), magnitude)
}

#[inline(always)]
fn quotient(a: u128, b: u128) -> u64
    requires nonzero { 0 < b }
    requires small_a { a < 2 ^ 126 }
    requires small_b { b < 2 ^ 126 }
    requires fits { rounded_quotient a b < 2 ^ 64 }
    ensures { result ≡ rounded_quotient a b }
{
    ((2 * a + b) / (2 * b)) as u64
}

#[inline(always)]
fn signed(negative: bool, magnitude: u64) -> i64
    requires { magnitude < 2 ^ 63 }
    ensures exact { result ≡ signed_of negative magnitude }
    ensures same { unsigned_abs result ≡ magnitude }
{
    let value = magnitude as i64;
    if negative { -value } else { value }
}
