//! Many lists of terms that share their cells.

ghost use Rattle.std.specs.Prelude.{◌≡◌, ◌≢◌, ◌↔◌, ◌<◌, ◌≤◌, ◌+◌, ◌^◌, ◌++◌, [], ◌∷◌, None, unsigned_abs, option_map, length, All, IsSome, IsNone, IfSome, OnOk, OnErr};
ghost use Rattle.mp_pool.specs.Ratios.{times_fraction};
ghost use Rattle.mp_pool.specs.Terms.{sum_terms, AreTerms, HasTooLarge, without, term_of};
ghost use Rattle.mp_pool.specs.Pool.{list_in, terms_in, with_list, without_list, used, spare, spare_lists, IsGrown};

use crate::cells::Cells;
use crate::fits::fits;
use crate::lists::{clear, push, push_all, remove};
use crate::room::{add_cell, add_slot};
use crate::splice::merge_into;
use crate::{List, Term, TermsOf};
use mp_scaled::NoMemory;
use std::alloc::Global;
use std::marker::Model;

/// A pool, which contracts see as its slots, each free or holding a list of terms, and its size in cells.
///
/// In each list serials go down from term to term, and each coefficient has a magnitude from 1 to 2^44 - 1. A cell
/// that no list holds is spare. Calls take cells from the spare ones and give them back; only `reserve` takes memory.
#[derive(Drop)]
pub struct Pool {
    cells: Cells,
    taken: Vec<bool>,
    vacant: Vec<u32>,
}

impl Model for Pool {
    ghost use Rattle.std.specs.Prelude.{List as Sequence, sum_by, length, vec_capacity};
    ghost use Rattle.mp_pool.specs.declared.Term.{Term};
    ghost use Rattle.mp_pool.specs.Pool.{Pool};
    ghost use Rattle.mp_pool.specs.Storage.Slots.{slots_from, IsPool};

    ghost Value = { Pool };

    ghost view = { λ p. record { slots = slots_from p.cells 3 p.taken.items; size = sum_by (λ (ts : Sequence Term). length ts) p.cells } };

    ghost invariant = { λ p. IsPool p.cells p.taken.items p.vacant.items (vec_capacity p.vacant) };
}

/// Cells and slots are numbered by words of 32 bits, so that there are at most so many of each.
const NUMBER_LIMIT: usize = (1 << 32) - 1;

impl Pool {
    /// A pool without slots and cells.
    pub fn new(alloc: Global) -> Pool
        ensures { result ≡ record { slots = []; size = 0 } }
    {
        Pool {
            cells: Cells::new(alloc),
            taken: Vec::new(alloc),
            vacant: Vec::new(alloc),
        }
    }

    /// Makes more cells and slots, so that so many are spare and free at least.
    ///
    /// The lists stay as they are. Where memory runs out, more cells and slots may have been made, and nothing else. It
    /// also counts as want of memory where there would be 2^32 cells or slots.
    pub fn reserve(&mut self, cells: usize, lists: usize) -> Result<(), NoMemory>
        ensures spare { OnOk result (cells ≤ spare self.new) }
        ensures spare_lists { OnOk result (lists ≤ spare_lists self.new) }
        ensures grown { IsGrown self.old self.new }
    {
        'cells: while self.spare() < cells {
            self.add_cell()?;
        }
        'lists: while self.spare_lists() < lists {
            self.add_slot()?;
        }
        Ok(())
    }

    fn add_cell(&mut self) -> Result<(), NoMemory>
        ensures ok { OnOk result (self.new ≡ record self.old { size = self.old.size + 1 }) }
        ensures err { OnErr result (self.new ≡ self.old) }
    {
        let _taken = &self.taken;
        if self.cells.size() >= NUMBER_LIMIT {
            return Err(NoMemory);
        }
        add_cell(&mut self.cells)?;
        Ok(())
    }

    fn add_slot(&mut self) -> Result<(), NoMemory>
        ensures ok { OnOk result (self.new ≡ record self.old { slots = self.old.slots ++ None ∷ [] }) }
        ensures err { OnErr result (self.new ≡ self.old) }
    {
        let slot = self.taken.len();
        if slot >= NUMBER_LIMIT {
            return Err(NoMemory);
        }
        self.taken.reserve(1)?;
        self.vacant.reserve(slot + 1 - self.vacant.len())?;
        add_slot(&mut self.cells)?;
        self.taken.push_reserved(false);
        self.vacant.push_reserved(slot as u32);
        Ok(())
    }

    /// The number of spare cells.
    pub fn spare(&self) -> usize
        ensures exact { result ≡ spare self.now }
        ensures total { result + used self.now ≡ self.now.size }
    {
        let _taken = &self.taken;
        self.cells.length(0)
    }

    /// The number of free slots.
    pub fn spare_lists(&self) -> usize
        ensures { result ≡ spare_lists self.now }
    {
        self.vacant.len()
    }

    /// The number of terms in all lists.
    pub fn used(&self) -> usize
        ensures { result ≡ used self.now }
    {
        let _taken = &self.taken;
        self.cells.size() - self.cells.length(0)
    }

    /// The terms of a list, from the greatest serial to the least.
    pub fn read(&self, list: List) -> TermsOf<'_>
        requires { IsSome (list_in self.now list.slot) }
        ensures same { result ≡ terms_in self.now list.slot }
        ensures ordered { AreTerms result }
        ensures few { length result < 2 ^ 32 }
    {
        let _taken = &self.taken;
        self.cells.read(list.chain())
    }

    /// A new list, without terms, in a slot that was free.
    pub fn make(&mut self) -> List
        requires { 1 ≤ spare_lists self.old }
        ensures free { list_in self.old result.slot ≡ None }
        ensures within { result.slot < length self.old.slots }
        ensures made { self.new ≡ with_list self.old result.slot [] }
    {
        let slot = match self.vacant.pop() {
            Some(slot) => slot,
            None => unreachable!(),
        };
        self.taken[slot as usize] = true;
        List { slot }
    }

    /// Adds a term at the end of a list.
    pub fn push(&mut self, list: List, term: Term)
        requires list { IsSome (list_in self.old list.slot) }
        requires spare { 1 ≤ spare self.old }
        requires terms { AreTerms (terms_in self.old list.slot ++ term ∷ []) }
        ensures { self.new ≡ with_list self.old list.slot (terms_in self.old list.slot ++ term ∷ []) }
    {
        let _taken = &self.taken;
        push(&mut self.cells, list.chain(), term);
    }

    /// Adds terms at the end of a list.
    pub fn push_all(&mut self, list: List, terms: &[Term])
        requires list { IsSome (list_in self.old list.slot) }
        requires spare { length terms.now ≤ spare self.old }
        requires terms { AreTerms terms.now }
        requires all { AreTerms (terms_in self.old list.slot ++ terms.now) }
        ensures { self.new ≡ with_list self.old list.slot (terms_in self.old list.slot ++ terms.now) }
    {
        let _taken = &self.taken;
        push_all(&mut self.cells, list.chain(), terms);
    }

    /// Takes the term of an unknown out of a list, and answers its coefficient, where it has one.
    pub fn remove(&mut self, list: List, serial: u32) -> Option<i64>
        requires { IsSome (list_in self.old list.slot) }
        ensures found { result ≡ option_map (λ t. t.coefficient) (term_of serial (terms_in self.old list.slot)) }
        ensures list { self.new ≡ with_list self.old list.slot (without serial (terms_in self.old list.slot)) }
    {
        let _taken = &self.taken;
        remove(&mut self.cells, list.chain(), serial)
    }

    /// The number of terms that a list would have, where the term of an unknown is left out and `f` times other terms
    /// are added, in units of 2^-28; none where a coefficient would come out too large. Small terms are dropped as in a
    /// sum of forms.
    pub fn fits(&self, list: List, serial: u32, f: i64, terms: &[Term]) -> Option<usize>
        requires list { IsSome (list_in self.now list.slot) }
        requires terms { AreTerms terms.now }
        requires others { All (λ t. t.serial ≢ serial) terms.now }
        requires small { unsigned_abs f < 2 ^ 44 }
        ensures too_large { IsNone result
            ↔ HasTooLarge (sum_terms (times_fraction f) (without serial (terms_in self.now list.slot)) terms.now) }
        ensures count { IfSome result (λ n. n
            ≡ length (sum_terms (times_fraction f) (without serial (terms_in self.now list.slot)) terms.now)) }
    {
        fits(&mut self.read(list), serial, f, terms)
    }

    /// Adds `f` times other terms to a list, where `f` is in units of 2^-28 and no coefficient comes out too large; small
    /// terms are dropped as in a sum of forms.
    pub fn splice_add(&mut self, list: List, f: i64, terms: &[Term])
        requires list { IsSome (list_in self.old list.slot) }
        requires terms { AreTerms terms.now }
        requires spare { length terms.now ≤ spare self.old }
        requires small { unsigned_abs f < 2 ^ 44 }
        requires fits { ¬ HasTooLarge (sum_terms (times_fraction f) (terms_in self.old list.slot) terms.now) }
        ensures { self.new ≡ with_list self.old list.slot
            (sum_terms (times_fraction f) (terms_in self.old list.slot) terms.now) }
    {
        let _taken = &self.taken;
        merge_into(&mut self.cells, list.chain(), f, terms);
    }

    /// Gives a list up: its cells are spare, and its slot is free.
    pub fn free(&mut self, list: List)
        requires { IsSome (list_in self.old list.slot) }
        ensures { self.new ≡ without_list self.old list.slot }
    {
        clear(&mut self.cells, list.chain());
        self.taken[list.slot as usize] = false;
        self.vacant.push_reserved(list.slot);
    }
}
