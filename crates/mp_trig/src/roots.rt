//! Square roots and Pythagorean sums and differences, to the nearest unit.

ghost use Rattle.std.specs.Prelude.{◌≡◌, ◌≢◌, ◌↔◌, ℕ, ◌≤◌, ◌<◌, ◌+◌, ◌-◌, ◌*◌, ◌^◌, pos, ◌<ℤ◌, ◌≤ℤ◌, unsigned_abs, IsErrOf, IfOk};
ghost use Rattle.mp_scaled.specs.declared.units.TheConstants.{SCALED_ONE, MAGNITUDE_LIMIT};
ghost use Rattle.mp_trig.specs.Roots.{IsNearestRoot, nearest_root, square, root_in_range, square_root_of, pyth_add_of, pyth_sub_of};

use crate::TrigFault;
use mp_scaled::{MAGNITUDE_LIMIT, SCALED_ONE};

/// The square root of a scaled number, to the nearest unit; `OutOfDomain` for a negative one.
pub fn square_root(x: i32) -> Result<i32, TrigFault>
    ensures exact { result ≡ square_root_of x }
    ensures nearest { IfOk result (λ r. IsNearestRoot (SCALED_ONE * unsigned_abs x) (unsigned_abs r)) }
    ensures domain { IsErrOf result TrigFault.OutOfDomain ↔ x <ℤ pos 0 }
    ensures no_overflow { result ≢ Err TrigFault.Overflow }
{
    if x < 0 {
        return Err(TrigFault::OutOfDomain);
    }
    Ok(nearest(u64::from(SCALED_ONE) * u64::from(x.unsigned_abs())) as i32)
}

/// The square root of `a^2 + b^2`, to the nearest unit of `a` and `b`.
pub fn pyth_add(a: i32, b: i32) -> Result<i32, TrigFault>
    ensures exact { result ≡ pyth_add_of a b }
    ensures nearest { IfOk result (λ r. IsNearestRoot (square a + square b) (unsigned_abs r)) }
    ensures overflow { IsErrOf result TrigFault.Overflow ↔ MAGNITUDE_LIMIT ≤ nearest_root (square a + square b) }
    ensures no_domain { result ≢ Err TrigFault.OutOfDomain }
{
    in_range(nearest(squared(a) + squared(b)))
}

/// The square root of `a^2 - b^2`, to the nearest unit of `a` and `b`; `OutOfDomain` where `b` has the
/// greater magnitude.
pub fn pyth_sub(a: i32, b: i32) -> Result<i32, TrigFault>
    ensures exact { result ≡ pyth_sub_of a b }
    ensures nearest { IfOk result (λ r. IsNearestRoot (square a - square b) (unsigned_abs r)) }
    ensures domain { IsErrOf result TrigFault.OutOfDomain ↔ unsigned_abs a < unsigned_abs b }
    ensures overflow { IsErrOf result TrigFault.Overflow ↔
        ((unsigned_abs b ≤ unsigned_abs a) × (MAGNITUDE_LIMIT ≤ nearest_root (square a - square b))) }
{
    if a.unsigned_abs() < b.unsigned_abs() {
        return Err(TrigFault::OutOfDomain);
    }
    in_range(nearest(squared(a) - squared(b)))
}

fn in_range(root: u64) -> Result<i32, TrigFault>
    ensures { result ≡ root_in_range root }
{
    if root >= u64::from(MAGNITUDE_LIMIT) {
        return Err(TrigFault::Overflow);
    }
    Ok(root as i32)
}

fn squared(a: i32) -> u64
    ensures exact { result ≡ square a }
    ensures small { result ≤ 2 ^ 62 }
{
    let magnitude = u64::from(a.unsigned_abs());
    magnitude * magnitude
}

/// The whole number nearest to the root of `n`.
pub(crate) fn nearest(n: u64) -> u64
    ensures exact { result ≡ nearest_root n }
    ensures nearest { IsNearestRoot n result }
{
    let root = whole_root(n);
    if n - root * root > root {
        root + 1
    } else {
        root
    }
}

/// The greatest number whose square is not above `n`, by Newton's iteration from above.
fn whole_root(n: u64) -> u64
    ensures not_above { result * result ≤ n }
    ensures not_below { n < (result + 1) * (result + 1) }
    ensures small { result < 2 ^ 32 }
{
    if n == 0 {
        return 0;
    }
    let mut root = root_above(n);
    'newton: loop {
        let next = (root + n / root) / 2;
        if next >= root {
            return root;
        }
        root = next;
    }
}

/// A power of 2 that is not below the root of `n`, and below four times that root.
fn root_above(n: u64) -> u64
    ensures not_below { n < (result + 1) * (result + 1) }
    ensures positive { 0 < result }
    ensures small { result ≤ 2 ^ 32 }
{
    1 << ((65 - n.leading_zeros()) / 2)
}
