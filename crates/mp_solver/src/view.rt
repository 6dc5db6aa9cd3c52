//! What an unknown equals, lent to be read.

ghost use Rattle.std.specs.Prelude.{◌≡◌, ◌≢◌, ◌<◌, ◌^◌, ◌∷◌, ℕ, ℤ, drop, unsigned_abs, IsTrue, All, IfOk, IfSome, IsSome};
ghost use Rattle.std.specs.Iterator.{YieldsFirst, item_count};
ghost use Rattle.mp_pool.specs.Pool.{list_in, terms_in};
ghost use Rattle.mp_pool.specs.Terms.{AreTerms};
ghost use Rattle.mp_solver.specs.Elimination.{term_of, replaced};
ghost use Rattle.mp_solver.specs.Storage.Solution.{replacement_of};

use crate::forms::constant_of_sum;
use mp_forms::Form;
use mp_pool::{List, Pool, Term, TermsOf};
use mp_scaled::NoMemory;
use std::alloc::Global;
use std::marker::Model;

/// A form that a system holds, which contracts see as that form.
#[derive(Drop)]
pub struct FormView<'a> {
    constant: i32,
    pool: &'a Pool,
    list: List,
}

/// What becomes of a form in which the pivot's new form replaces it.
#[derive(Clone, Copy, Debug)]
pub enum Replacement {
    /// The pivot does not occur.
    Absent,
    /// It had so many terms, and has so many then.
    Changed(usize, usize),
    /// Its constant overflows.
    Overflows,
    /// One of its coefficients is too large.
    TooLarge,
}

impl<'a> Model for FormView<'a> {
    ghost use Rattle.std.specs.Prelude.{IsSome};
    ghost use Rattle.mp_pool.specs.Pool.{list_in, terms_in};
    ghost use Rattle.mp_forms.specs.Forms.{LinearForm};

    ghost Value = { LinearForm };

    ghost view = { λ it. record { constant = it.constant; terms = terms_in it.pool.now it.list.slot } };

    ghost invariant = { λ it. IsSome (list_in it.pool.now it.list.slot) };
}

impl<'a> FormView<'a> {
    pub(crate) fn of(constant: i32, pool: &'a Pool, list: List) -> FormView<'a>
        requires { IsSome (list_in pool.now list.slot) }
        ensures { result ≡ record { constant = constant; terms = terms_in pool.now list.slot } }
    {
        FormView {
            constant,
            pool,
            list,
        }
    }

    /// The constant, in units of 2^-16.
    pub fn constant(&self) -> i32
        ensures { result ≡ self.now.constant }
    {
        self.constant
    }

    /// The terms, from the greatest serial to the least.
    pub fn terms(&self) -> Terms<'a>
        ensures same { result ≡ self.now.terms }
        ensures ordered { AreTerms result }
    {
        Terms {
            rest: self.pool.read(self.list),
        }
    }

    /// The term of an unknown, where there is one.
    fn term_of(&self, serial: u32) -> Option<Term>
        ensures exact { result ≡ term_of serial self.now.terms }
        ensures small { IfSome result (λ t. unsigned_abs t.coefficient < 2 ^ 44) }
    {
        'terms: for term in self.terms() {
            if term.serial == serial {
                return Some(term);
            }
        }
        None
    }

    /// What replacing an unknown by another form comes to.
    pub(crate) fn replacement(&self, serial: u32, new: &Form) -> Replacement
        requires { All (λ t. t.serial ≢ serial) new.now.terms }
        ensures { result ≡ replacement_of self.now (replaced serial new.now self.now) (term_of serial self.now.terms) }
    {
        let Some(term) = self.term_of(serial) else {
            return Replacement::Absent;
        };
        let Some(count) = self
            .pool
            .fits(self.list, serial, term.coefficient, new.terms())
        else {
            return Replacement::TooLarge;
        };
        let constant = constant_of_sum(self.constant, term.coefficient, new.constant());
        if constant.unsigned_abs() >= 1 << 31 {
            return Replacement::Overflows;
        }
        Replacement::Changed(self.pool.read(self.list).len() as usize, count)
    }

    /// A form of its own that is the same.
    pub(crate) fn to_form(&self, alloc: Global) -> Result<Form, NoMemory>
        ensures { IfOk result (λ form. form ≡ self.now) }
    {
        let mut terms = Vec::new(alloc);
        'terms: for term in self.terms() {
            terms.push(term)?;
        }
        Ok(Form::of_terms(self.constant, terms))
    }
}

/// The terms of a form, one after another, which contracts see as the list of those that are left.
#[derive(Debug, Drop)]
pub struct Terms<'a> {
    rest: TermsOf<'a>,
}

impl<'a> Model for Terms<'a> {
    ghost use Rattle.std.specs.Prelude.{List as Sequence};
    ghost use Rattle.mp_pool.specs.declared.Term.{Term};

    ghost Value = { Sequence Term };

    ghost view = { λ it. it.rest };
}

impl<'a> Terms<'a> {
    /// Passes the terms of greater serial, and says whether the next one is of this.
    pub(crate) fn skip_to(&mut self, serial: u32) -> bool
        ensures rest { (n : ℕ) × (self.new ≡ drop n self.old) }
        ensures found { IsTrue result → (c : ℤ) × (self.new ≡ record { serial = serial; coefficient = c } ∷ drop 1 self.new) }
    {
        'skipping: while let Some(term) = self.rest.peek() {
            if term.serial <= serial {
                return term.serial == serial;
            }
            self.rest.step();
        }
        false
    }
}

impl<'a> Iterator for Terms<'a> {
    type Item = Term;

    ghost next_gives = { YieldsFirst (λ rest. rest) };

    ghost remaining = { item_count (λ rest. rest) };

    fn next(&mut self) -> Option<Term> {
        self.rest.next()
    }
}
