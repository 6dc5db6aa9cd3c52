//! What the pivot of an equation equals, and how that replaces it in a form.

ghost use Rattle.std.specs.Prelude.{◌≡◌, ◌↔◌, ◌<◌, ◌≤◌, ◌^◌, ◌++◌, unsigned_abs, All, IfOk, OnOk, IfSome, IsNone};
ghost use Rattle.mp_pool.specs.Terms.{lone_term, changed_terms, AreTerms};
ghost use Rattle.mp_solver.specs.Elimination.{pivot_of, without, over_negative, solved_for, judged};
ghost use Rattle.mp_solver.specs.Storage.Solution.{IsSolution};

use crate::Equated;
use mp_forms::{Form, terms_stay_in_order};
use mp_pool::Term;
use mp_scaled::{NoMemory, make_fraction};
use std::alloc::Global;

/// The term of greatest magnitude; at a tie the one of greatest serial.
pub fn pivot_of(terms: &[Term]) -> Option<Term>
    ensures { result ≡ pivot_of terms.now }
{
    let (first, rest) = terms.split_first()?;
    let mut pivot = *first;
    'terms: for term in rest {
        if term.coefficient.unsigned_abs() > pivot.coefficient.unsigned_abs() {
            pivot = *term;
        }
    }
    Some(pivot)
}

/// The pivot's new form. Where its constant overflows, that is said, and the form has another one.
#[derive(Drop)]
pub struct Solution {
    pub form: Form,
    pub overflows: bool,
}

/// What the pivot equals where the form is 0.
pub fn solved_for(alloc: Global, pivot: Term, residual: &Form) -> Result<Solution, NoMemory>
    requires nonzero { 0 < unsigned_abs pivot.coefficient }
    requires small { unsigned_abs pivot.coefficient < 2 ^ 44 }
    requires greatest { All (λ t. unsigned_abs t.coefficient ≤ unsigned_abs pivot.coefficient) residual.now.terms }
    ensures { IfOk result (λ solution. IsSolution solution (solved_for pivot residual.now)) }
{
    terms_stay_in_order();
    let constant = over_negative(pivot.coefficient, i64::from(residual.constant()));
    let others = without(alloc, pivot.serial, residual.terms())?;
    let terms = quotients(alloc, pivot.coefficient, &others)?;
    Ok(Solution {
        form: Form::of_terms(constant.unwrap_or(0), terms),
        overflows: constant.is_none(),
    })
}

/// `-(2^28 n / v)`, rounded, where its magnitude is below 2^31.
fn over_negative(v: i64, n: i64) -> Option<i32>
    requires nonzero { 0 < unsigned_abs v }
    requires small_v { unsigned_abs v < 2 ^ 62 }
    requires small_n { unsigned_abs n < 2 ^ 62 }
    ensures some { IfSome result (λ q. q ≡ over_negative v n) }
    ensures none { IsNone result ↔ (2 ^ 31 ≤ unsigned_abs (over_negative v n)) }
{
    match make_fraction(n, v) {
        Ok(quotient) => Some(-quotient),
        Err(_) => None,
    }
}

/// The terms of all other unknowns.
fn without(alloc: Global, serial: u32, terms: &[Term]) -> Result<Vec<Term>, NoMemory>
    ensures { IfOk result (λ others. others.items ≡ without serial terms.now) }
{
    let mut others = Vec::with_capacity(alloc, terms.len())?;
    'terms: for term in terms {
        if term.serial != serial {
            others.push(*term)?;
        }
    }
    Ok(others)
}

fn push_term(to: &mut Vec<Term>, serial: u32, coefficient: i32) -> Result<(), NoMemory>
    ensures { OnOk result (to.new.items ≡ to.old.items ++ lone_term serial coefficient) }
{
    if coefficient.unsigned_abs() >= LEAST_LONE {
        to.push(Term {
            serial,
            coefficient: i64::from(coefficient),
        })?;
    }
    Ok(())
}

/// A new coefficient stays from this magnitude on.
const LEAST_LONE: u32 = 1343;

/// The terms divided by `-v`.
fn quotients(alloc: Global, v: i64, terms: &[Term]) -> Result<Vec<Term>, NoMemory>
    requires nonzero { 0 < unsigned_abs v }
    requires small { unsigned_abs v < 2 ^ 44 }
    requires greatest { All (λ t. unsigned_abs t.coefficient ≤ unsigned_abs v) terms.now }
    ensures { IfOk result (λ quotients. quotients.items ≡ changed_terms (over_negative v) terms.now) }
{
    let mut quotients = Vec::with_capacity(alloc, terms.len())?;
    'terms: for term in terms {
        match over_negative(v, term.coefficient) {
            Some(coefficient) => push_term(&mut quotients, term.serial, coefficient)?,
            None => unreachable!(),
        }
    }
    Ok(quotients)
}

/// What an equation between known numbers comes to, by their difference.
pub fn judged(residual: i32) -> Equated
    ensures { result ≡ judged residual }
{
    if residual.unsigned_abs() <= REDUNDANT_LIMIT {
        Equated::Redundant(residual)
    } else {
        Equated::Inconsistent(residual)
    }
}

/// A difference of so many units of 2^-16 is an error of rounding.
const REDUNDANT_LIMIT: u32 = 64;
