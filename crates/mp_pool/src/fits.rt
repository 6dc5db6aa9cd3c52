//! Whether a sum of terms stays in range, and how many terms it has, found before anything is written.

ghost use Rattle.std.specs.Prelude.{◌≡◌, ◌≢◌, ◌<◌, ◌≤◌, ◌+◌, ◌^◌, ◌∷◌, [], ℕ, Some, List, All, length, drop, ℤ, unsigned_abs, cond, nat_eq, IsNone, IfSome};
ghost use Rattle.mp_pool.specs.declared.Term.{Term};
ghost use Rattle.mp_pool.specs.Ratios.{times_fraction};
ghost use Rattle.mp_pool.specs.Terms.{without, AreTerms};
ghost use Rattle.mp_pool.specs.Storage.Merge.{merge, kept, plus, fitting, IsSmall, AreSmall, FrontAtMost, FrontBelow};

use crate::merge::{LEAST_JOINT, LEAST_LONE, product, sum};
use crate::{Term, TermsOf};

/// Passes the terms of greater serial, and counts them, but for that of the unknown which is left out.
fn skip(left: &mut TermsOf<'_>, omitted: u32, serial: u32) -> usize
    requires terms { AreTerms left.old }
    requires few { length left.old < 2 ^ 32 }
    ensures terms { AreTerms left.new }
    ensures front { FrontAtMost serial left.new }
    ensures fewer { result + length left.new ≤ length left.old }
    ensures same { (change : ℤ → ℤ) (q : Term) (qs : List Term) → q.serial ≡ serial →
        plus (Some result) (fitting (merge change (without omitted left.new) (q ∷ qs)))
        ≡ fitting (merge change (without omitted left.old) (q ∷ qs)) }
{
    let mut count = 0;
    'skipping: while let Some(p) = left.peek() {
        if p.serial <= serial {
            break 'skipping;
        }
        left.step();
        count += stays(p.serial, omitted);
    }
    count
}

/// 1 for a term that stays, and 0 for that of the unknown which is left out.
fn stays(serial: u32, omitted: u32) -> usize
    ensures exact { result ≡ cond (nat_eq serial omitted) 0 1 }
    ensures bounded { result ≤ 1 }
{
    usize::from(serial != omitted)
}

/// The first coefficient, where the first serial is this one.
fn coefficient_of(left: &TermsOf<'_>, serial: u32) -> Option<i64>
    requires { FrontAtMost serial left.now }
    ensures none { IsNone result → FrontBelow serial left.now }
    ensures some { IfSome result (λ c. left.now ≡ record { serial = serial; coefficient = c } ∷ drop 1 left.now) }
{
    match left.peek() {
        Some(p) if p.serial == serial => Some(p.coefficient),
        _ => None,
    }
}

/// 1 for a coefficient that stays, 0 for one that is dropped, and none for one that is too large.
fn count_of(least: u64, coefficient: i64) -> Option<usize>
    requires { least < 2 ^ 44 }
    ensures same { (s : ℕ) (rest : List Term) → plus result (fitting rest) ≡ fitting (kept least s coefficient rest) }
    ensures bounded { IfSome result (λ n. n ≤ 1) }
{
    let magnitude = coefficient.unsigned_abs();
    if magnitude >= 1 << 44 {
        None
    } else if magnitude >= least {
        Some(1)
    } else {
        Some(0)
    }
}

/// How many terms one term of the others leaves; none where its coefficient is too large.
fn next_count(left: &mut TermsOf<'_>, f: i64, q: Term) -> Option<usize>
    requires front { FrontAtMost q.serial left.old }
    requires terms { AreTerms left.old }
    requires small_f { unsigned_abs f < 2 ^ 44 }
    requires small_q { IsSmall q }
    ensures terms { AreTerms left.new }
    ensures fewer { length left.new ≤ length left.old }
    ensures bounded { IfSome result (λ n. n ≤ 1) }
    ensures same { (omitted : ℕ) (qs : List Term) → q.serial ≢ omitted →
        plus result (fitting (merge (times_fraction f) (without omitted left.new) qs))
        ≡ fitting (merge (times_fraction f) (without omitted left.old) (q ∷ qs)) }
{
    let more = product(f, q.coefficient);
    match coefficient_of(left, q.serial) {
        Some(c) => {
            left.step();
            count_of(LEAST_JOINT, sum(c, more))
        }
        None => count_of(LEAST_LONE, more),
    }
}

/// The number of the terms that are left.
fn rest_count(left: &mut TermsOf<'_>, omitted: u32) -> usize
    requires terms { AreTerms left.old }
    requires few { length left.old < 2 ^ 32 }
    ensures exact { Some result ≡ fitting (without omitted left.old) }
    ensures bounded { result ≤ length left.old }
{
    let mut count = 0;
    'counting: while let Some(p) = left.peek() {
        left.step();
        count += stays(p.serial, omitted);
    }
    count
}

/// The number of terms of left + f * right, where the term of one unknown is left out on the left; none where a
/// coefficient is too large.
pub fn fits(left: &mut TermsOf<'_>, omitted: u32, f: i64, right: &[Term]) -> Option<usize>
    requires terms { AreTerms left.old }
    requires few { length left.old < 2 ^ 32 }
    requires small_f { unsigned_abs f < 2 ^ 44 }
    requires small_right { AreSmall right.now }
    requires others { All (λ q. q.serial ≢ omitted) right.now }
    ensures { result ≡ fitting (merge (times_fraction f) (without omitted left.old) right.now) }
{
    let mut count = 0;
    'fitting: for q in right {
        count += skip(left, omitted, q.serial);
        count += next_count(left, f, *q)?;
    }
    Some(count + rest_count(left, omitted))
}
