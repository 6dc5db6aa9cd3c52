//! Lists of terms, and how they are added.

ghost use Rattle.std.specs.Prelude.{◌≡◌, ◌↔◌, ◌++◌, IfOk, OnOk, IsTrue};
ghost use Rattle.mp_pool.specs.Ratios.{ratio_times};
ghost use Rattle.mp_pool.specs.Terms.{term_from, lone_term, changed_terms, sum_terms, SerialsDecrease, AreTerms};

use mp_pool::{Ratio, Term};
use mp_scaled::NoMemory;
use std::alloc::Global;
use std::cmp::Ordering;

/// The sum of two coefficients stays from this magnitude on.
const LEAST_JOINT: u64 = 2685;

/// Any other new coefficient stays from this magnitude on.
const LEAST_LONE: u64 = 1343;

/// Appends a term whose coefficient has at least this magnitude, and no other.
#[inline(always)]
fn push_from(
    terms: &mut Vec<Term>,
    least: u64,
    serial: u32,
    coefficient: i64,
) -> Result<(), NoMemory>
    ensures { OnOk result (terms.new.items ≡ terms.old.items ++ term_from least serial coefficient) }
{
    if coefficient.unsigned_abs() >= least {
        terms.push(Term {
            serial,
            coefficient,
        })?;
    }
    Ok(())
}

/// Appends terms, each multiplied by the ratio.
#[inline(always)]
pub fn push_each(to: &mut Vec<Term>, ratio: Ratio, terms: &[Term]) -> Result<(), NoMemory>
    requires { AreTerms terms.now }
    ensures { OnOk result (to.new.items
        ≡ to.old.items ++ changed_terms (ratio_times ratio.numerator ratio.denominator) terms.now) }
{
    for term in terms {
        push_from(to, LEAST_LONE, term.serial, ratio.times(term.coefficient))?;
    }
    Ok(())
}

/// The terms on the left and, multiplied by the ratio, those on the right, in one pass over both.
#[inline(always)]
pub fn sum_of_terms(
    alloc: Global,
    ratio: Ratio,
    left: &[Term],
    right: &[Term],
) -> Result<Vec<Term>, NoMemory>
    requires on_left { AreTerms left.now }
    requires on_right { AreTerms right.now }
    ensures { IfOk result (λ sum. sum.items
        ≡ sum_terms (ratio_times ratio.numerator ratio.denominator) left.now right.now) }
{
    let mut sum = Vec::with_capacity(alloc, left.len() + right.len())?;
    let (mut on_left, mut on_right) = (left, right);
    'merge: while let (Some((p, ps)), Some((q, qs))) = (
        on_left.split_first(),
        on_right.split_first(),
    ) {
        match p.serial.cmp(&q.serial) {
            Ordering::Greater => {
                sum.push(*p)?;
                on_left = ps;
            }
            Ordering::Equal => {
                let coefficient = p.coefficient + ratio.times(q.coefficient);
                push_from(&mut sum, LEAST_JOINT, p.serial, coefficient)?;
                on_left = ps;
                on_right = qs;
            }
            Ordering::Less => {
                push_from(&mut sum, LEAST_LONE, q.serial, ratio.times(q.coefficient))?;
                on_right = qs;
            }
        }
    }
    sum.extend_from_slice(on_left)?;
    push_each(&mut sum, ratio, on_right)?;
    Ok(sum)
}

/// Whether all of these terms have lower serials.
pub fn stands_before(serial: u32, terms: &[Term]) -> bool
    requires { AreTerms terms.now }
    ensures { IsTrue result ↔ SerialsDecrease serial terms.now }
{
    match terms.first() {
        Some(first) => first.serial < serial,
        None => true,
    }
}

/// The terms with one more before them, but where its coefficient is too small to stay.
pub fn with_first(terms: Vec<Term>, serial: u32, coefficient: i64) -> Result<Vec<Term>, NoMemory>
    ensures { IfOk result (λ all. all.items ≡ lone_term serial coefficient ++ terms.items) }
{
    let first = Term {
        serial,
        coefficient,
    };
    let mut all = terms;
    if coefficient.unsigned_abs() >= LEAST_LONE {
        all.insert(0, first)?;
    }
    Ok(all)
}
