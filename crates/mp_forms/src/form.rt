//! Linear forms.

ghost use Rattle.std.specs.Prelude.{◌≡◌, ◌≢◌, ◌↔◌, ◌<◌, ◌≤◌, ◌^◌, pos, ◌+ℤ◌, unsigned_abs, [], ◌∷◌, ◌++◌, IfOk, IfSome, IsErrOf};
ghost use Rattle.std.specs.List.{list_any};
ghost use Rattle.mp_pool.specs.Ratios.{ratio_times, times_fraction, times_scaled, over_scaled};
ghost use Rattle.mp_pool.specs.Terms.{lone_term, changed_terms, sum_terms, SerialsDecrease, AreTerms, AreOrdered, HasTooLarge, is_too_large};
ghost use Rattle.mp_forms.specs.Forms.{within_limits, changed_form, sum_form, sum_of, form_times_scaled, form_over_scaled};

use crate::FormFault;
use crate::terms::{push_each, stands_before, sum_of_terms, with_first};
use mp_pool::{Ratio, Term};
use mp_scaled::{FRACTION_ONE, NoMemory};
use std::alloc::Global;
use std::marker::Model;

/// A linear form: a constant and terms, which contracts see as a record of the two.
///
/// Serials go down from term to term, and each coefficient has a magnitude from 1 to 2^44 - 1. What a sum, a
/// product or a quotient answers has a constant of magnitude below 2^31.
#[derive(Debug, Drop)]
pub struct Form {
    constant: i32,
    terms: Vec<Term>,
}

impl Model for Form {
    ghost use Rattle.mp_pool.specs.Terms.{AreTerms};
    ghost use Rattle.mp_forms.specs.Forms.{LinearForm};

    ghost Value = { LinearForm };

    ghost view = { λ form. record { constant = form.constant; terms = form.terms.items } };

    ghost invariant = { λ form. AreTerms form.terms.items };
}

/// Each coefficient has a smaller magnitude.
const COEFFICIENT_LIMIT: u64 = 1 << 44;

/// The constant of an answer has a smaller magnitude.
const CONSTANT_LIMIT: u64 = 1 << 31;

fn has_too_large(terms: &[Term]) -> bool
    ensures { result ≡ list_any is_too_large terms.now }
{
    terms
        .iter()
        .any(|t| t.coefficient.unsigned_abs() >= COEFFICIENT_LIMIT)
}

/// The form with that constant and those terms, where they are within the limits.
fn limited(constant: i64, terms: Vec<Term>) -> Result<Form, FormFault>
    requires { AreOrdered terms.items }
    ensures { result ≡ within_limits constant terms.items }
{
    if has_too_large(&terms) {
        return Err(FormFault::CoefficientTooLarge);
    }
    in_range(constant, terms)
}

/// The form with that constant and those terms, where the constant is within its limit.
#[tactic(auto, using(crate::proofs::LimitLemmas::terms_are_small))]
fn in_range(constant: i64, terms: Vec<Term>) -> Result<Form, FormFault>
    requires { AreTerms terms.items }
    ensures { result ≡ within_limits constant terms.items }
{
    if constant.unsigned_abs() >= CONSTANT_LIMIT {
        return Err(FormFault::Overflow);
    }
    Ok(Form {
        constant: constant as i32,
        terms,
    })
}

#[inline(always)]
fn sum_of_constants(ratio: Ratio, left: i32, right: i32) -> i64
    ensures { result ≡ left +ℤ ratio_times ratio.numerator ratio.denominator right }
{
    i64::from(left) + ratio.times(i64::from(right))
}

impl Form {
    /// A known number, in units of 2^-16: any that the type holds. That is also -2^31, which no other call answers:
    /// a sum, a product or a quotient with it is tested against the limits as any other.
    pub fn constant_of(alloc: Global, value: i32) -> Form
        ensures { result ≡ record { constant = value; terms = [] } }
    {
        Form {
            constant: value,
            terms: Vec::new(alloc),
        }
    }

    /// The unknown with that number, once.
    pub fn unknown(alloc: Global, serial: u32) -> Result<Form, NoMemory>
        ensures { IfOk result (λ form. form ≡ record {
          constant = pos 0;
          terms = record { serial = serial; coefficient = pos 268435456 } ∷ [];
        }) }
    {
        let term = Term {
            serial,
            coefficient: i64::from(FRACTION_ONE),
        };
        Ok(Form {
            constant: 0,
            terms: Vec::from_slice(alloc, &[term])?,
        })
    }

    /// The form of a constant and terms.
    pub fn of_terms(constant: i32, terms: Vec<Term>) -> Form
        requires { AreTerms terms.items }
        ensures { result ≡ record { constant = constant; terms = terms.items } }
    {
        Form { constant, terms }
    }

    /// The form once more.
    pub fn copy(&self, alloc: Global) -> Result<Form, NoMemory>
        ensures { IfOk result (λ copy. copy ≡ self.now) }
    {
        Ok(Form {
            constant: self.constant,
            terms: Vec::from_slice(alloc, &self.terms)?,
        })
    }

    /// The constant, in units of 2^-16.
    pub fn constant(&self) -> i32
        ensures { result ≡ self.now.constant }
    {
        self.constant
    }

    /// The terms, from the greatest serial to the least.
    pub fn terms(&self) -> &[Term]
        ensures same { result.now ≡ self.now.terms }
        ensures ordered { AreTerms result.now }
    {
        &self.terms
    }

    /// This form plus `f` times another, where `f` is in units of 2^-28 and of magnitude below 2^44.
    ///
    /// The terms with one serial are added, and their sum is dropped where its magnitude is below 2685. A
    /// term of the other form alone is dropped where its multiple has a magnitude of at most 1342, and a term
    /// of this form alone stays. A coefficient that is too large is answered before a constant that is.
    pub fn add_times(
        &self,
        alloc: Global,
        f: i64,
        other: &Form,
    ) -> Result<Result<Form, FormFault>, NoMemory>
        requires { unsigned_abs f < 2 ^ 44 }
        ensures exact { IfOk result (λ answer. answer ≡ sum_of f self.now other.now) }
        ensures too_large { IfOk result (λ answer. IsErrOf answer FormFault.CoefficientTooLarge
            ↔ HasTooLarge (sum_terms (times_fraction f) self.now.terms other.now.terms)) }
        ensures overflow { IfOk result (λ answer. IsErrOf answer FormFault.Overflow
            ↔ ((¬ HasTooLarge (sum_terms (times_fraction f) self.now.terms other.now.terms))
            × (2 ^ 31 ≤ unsigned_abs (self.now.constant +ℤ times_fraction f other.now.constant)))) }
        ensures undivided { IfOk result (λ answer. ¬ IsErrOf answer FormFault.DivisionByZero) }
    {
        self.plus_multiple(alloc, Ratio::fraction(f), other)
    }

    /// This form multiplied by a known number in units of 2^-16.
    ///
    /// A coefficient is dropped where its multiple has a magnitude of at most 1342. A coefficient that is too
    /// large is answered before a constant that is.
    pub fn scale_by(&self, alloc: Global, s: i32) -> Result<Result<Form, FormFault>, NoMemory>
        ensures exact { IfOk result (λ answer. answer ≡ form_times_scaled s self.now) }
        ensures too_large { IfOk result (λ answer. IsErrOf answer FormFault.CoefficientTooLarge
            ↔ HasTooLarge (changed_terms (times_scaled s) self.now.terms)) }
        ensures overflow { IfOk result (λ answer. IsErrOf answer FormFault.Overflow
            ↔ ((¬ HasTooLarge (changed_terms (times_scaled s) self.now.terms))
            × (2 ^ 31 ≤ unsigned_abs (times_scaled s self.now.constant)))) }
        ensures undivided { IfOk result (λ answer. ¬ IsErrOf answer FormFault.DivisionByZero) }
    {
        self.multiplied(alloc, Ratio::scaled(s))
    }

    /// This form divided by a known number in units of 2^-16.
    ///
    /// A coefficient is dropped where its quotient has a magnitude of at most 1342. Division by zero is
    /// answered before all else, and a coefficient that is too large before a constant that is.
    pub fn divide_by(&self, alloc: Global, s: i32) -> Result<Result<Form, FormFault>, NoMemory>
        ensures exact { IfOk result (λ answer. answer ≡ form_over_scaled s self.now) }
        ensures zero { IfOk result (λ answer. IsErrOf answer FormFault.DivisionByZero ↔ (s ≡ pos 0)) }
        ensures too_large { IfOk result (λ answer. IsErrOf answer FormFault.CoefficientTooLarge
            ↔ ((s ≢ pos 0) × HasTooLarge (changed_terms (over_scaled s) self.now.terms))) }
        ensures overflow { IfOk result (λ answer. IsErrOf answer FormFault.Overflow
            ↔ ((s ≢ pos 0) × (¬ HasTooLarge (changed_terms (over_scaled s) self.now.terms))
            × (2 ^ 31 ≤ unsigned_abs (over_scaled s self.now.constant)))) }
    {
        if s == 0 {
            return Ok(Err(FormFault::DivisionByZero));
        }
        self.multiplied(alloc, Ratio::over_scaled(s))
    }

    /// The sum of `add_times`, for which this form is given up.
    ///
    /// Where the other form is a new unknown, or another one that stands before all of this form's, its term is put
    /// before them, and none of them is copied.
    pub fn into_sum(self, f: i64, other: &Form) -> Result<Result<Form, FormFault>, NoMemory>
        requires { unsigned_abs f < 2 ^ 44 }
        ensures exact { IfOk result (λ answer. answer ≡ sum_of f self other.now) }
        ensures too_large { IfOk result (λ answer. IsErrOf answer FormFault.CoefficientTooLarge
            ↔ HasTooLarge (sum_terms (times_fraction f) self.terms other.now.terms)) }
        ensures overflow { IfOk result (λ answer. IsErrOf answer FormFault.Overflow
            ↔ ((¬ HasTooLarge (sum_terms (times_fraction f) self.terms other.now.terms))
            × (2 ^ 31 ≤ unsigned_abs (self.constant +ℤ times_fraction f other.now.constant)))) }
        ensures undivided { IfOk result (λ answer. ¬ IsErrOf answer FormFault.DivisionByZero) }
    {
        self.into_plus_multiple(Ratio::fraction(f), other)
    }

    fn into_plus_multiple(
        self,
        ratio: Ratio,
        other: &Form,
    ) -> Result<Result<Form, FormFault>, NoMemory>
        ensures { IfOk result (λ answer. answer
            ≡ sum_form (ratio_times ratio.numerator ratio.denominator) self other.now) }
    {
        match self.first_of(other) {
            Some(q) => {
                let constant = sum_of_constants(ratio, self.constant, other.constant);
                self.with_first(constant, q.serial, ratio.times(q.coefficient))
            }
            None => {
                let alloc = *self.terms.allocator();
                self.plus_multiple(alloc, ratio, other)
            }
        }
    }

    /// The only term of the other form, where it stands before all of this one.
    fn first_of(&self, other: &Form) -> Option<Term>
        ensures { IfSome result (λ q. (other.now.terms ≡ q ∷ []) × SerialsDecrease q.serial self.now.terms) }
    {
        if other.terms.len() == 1 && stands_before(other.terms[0].serial, &self.terms) {
            Some(other.terms[0])
        } else {
            None
        }
    }

    /// These terms, with another constant and one more term before them, where that is within the limits.
    fn with_first(
        self,
        constant: i64,
        serial: u32,
        coefficient: i64,
    ) -> Result<Result<Form, FormFault>, NoMemory>
        requires { SerialsDecrease serial self.terms }
        ensures { IfOk result (λ answer. answer ≡ within_limits constant (lone_term serial coefficient ++ self.terms)) }
    {
        if coefficient.unsigned_abs() >= COEFFICIENT_LIMIT {
            return Ok(Err(FormFault::CoefficientTooLarge));
        }
        let terms = with_first(self.terms, serial, coefficient)?;
        Ok(in_range(constant, terms))
    }

    fn plus_multiple(
        &self,
        alloc: Global,
        ratio: Ratio,
        other: &Form,
    ) -> Result<Result<Form, FormFault>, NoMemory>
        ensures { IfOk result (λ answer. answer
            ≡ sum_form (ratio_times ratio.numerator ratio.denominator) self.now other.now) }
    {
        let constant = sum_of_constants(ratio, self.constant, other.constant);
        let terms = sum_of_terms(alloc, ratio, &self.terms, &other.terms)?;
        Ok(limited(constant, terms))
    }

    fn multiplied(&self, alloc: Global, ratio: Ratio) -> Result<Result<Form, FormFault>, NoMemory>
        ensures { IfOk result (λ answer.
            answer ≡ changed_form (ratio_times ratio.numerator ratio.denominator) self.now) }
    {
        let constant = ratio.times(i64::from(self.constant));
        let mut terms = Vec::with_capacity(alloc, self.terms.len())?;
        push_each(&mut terms, ratio, &self.terms)?;
        Ok(limited(constant, terms))
    }
}
