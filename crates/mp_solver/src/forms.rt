//! The forms of the dependent unknowns, whose terms are lists of one pool.

ghost use Rattle.std.specs.Prelude.{◌≡◌, ◌≢◌, ◌<◌, ◌≤◌, ◌+◌, ◌^◌, ◌+ℤ◌, ◌++◌, ◌∷◌, [], None, Some, All, unsigned_abs, option_map, is_some, length, slice_index_or, slice_set, OnOk, OnErr};
ghost use Rattle.mp_pool.specs.Ratios.{times_fraction};
ghost use Rattle.mp_forms.specs.Forms.{LinearForm};
ghost use Rattle.mp_solver.specs.Elimination.{replaced, term_count};
ghost use Rattle.mp_solver.specs.Storage.Solution.{Stays};

use crate::FormView;
use mp_forms::Form;
use mp_pool::{List, Pool, Ratio};
use mp_scaled::NoMemory;
use std::alloc::Global;
use std::marker::Model;

/// A form: its constant, and the list of its terms.
#[derive(Clone, Copy, Debug)]
pub struct Entry {
    pub constant: i32,
    pub list: List,
}

/// The forms, one for each row or none, which contracts see as states, with the room that is left.
#[derive(Drop)]
pub struct Forms {
    entries: Vec<Option<Entry>>,
    pool: Pool,
}

impl Model for Forms {
    ghost use Rattle.mp_pool.specs.Pool.{spare, spare_lists};
    ghost use Rattle.mp_solver.specs.Storage.Held.{Held, states_of, AreHeld};

    ghost Value = { Held };

    ghost view = { λ f. record { states = states_of f.pool f.entries.items; spare = spare f.pool; lists = spare_lists f.pool } };

    ghost invariant = { λ f. AreHeld f.pool f.entries.items };
}

impl Forms {
    /// No row.
    pub fn new(alloc: Global) -> Forms
        ensures { result ≡ record { states = []; spare = 0; lists = 0 } }
    {
        Forms {
            entries: Vec::new(alloc),
            pool: Pool::new(alloc),
        }
    }

    /// The number of rows.
    pub fn count(&self) -> usize
        ensures { result ≡ length self.now.states }
    {
        self.entries.len()
    }

    /// Adds a row without a form.
    pub fn push(&mut self) -> Result<(), NoMemory>
        ensures ok { OnOk result (self.new ≡ record self.old { states = self.old.states ++ None ∷ [] }) }
        ensures err { OnErr result (self.new ≡ self.old) }
    {
        let _pool = &self.pool;
        self.entries.push(None)?;
        Ok(())
    }

    /// Makes room for so many more terms and forms.
    pub fn reserve(&mut self, cells: usize, lists: usize) -> Result<(), NoMemory>
        ensures states { self.new.states ≡ self.old.states }
        ensures spare { self.old.spare ≤ self.new.spare }
        ensures lists { self.old.lists ≤ self.new.lists }
        ensures more_spare { OnOk result (cells ≤ self.new.spare) }
        ensures more_lists { OnOk result (lists ≤ self.new.lists) }
    {
        let _entries = &self.entries;
        self.pool.reserve(cells, lists)
    }

    /// The number of terms of all forms.
    pub fn used(&self) -> usize
        ensures { result ≡ term_count self.now.states }
    {
        let _entries = &self.entries;
        self.pool.used()
    }

    /// Whether a row has a form.
    pub fn has(&self, row: usize) -> bool
        ensures { result ≡ is_some (slice_index_or self.now.states row None) }
    {
        entry_at(&self.entries, row).is_some()
    }

    /// The form of a row.
    pub fn get(&self, row: usize) -> Option<FormView<'_>>
        ensures { result ≡ slice_index_or self.now.states row None }
    {
        let entry = entry_at(&self.entries, row)?;
        Some(FormView::of(entry.constant, &self.pool, entry.list))
    }

    /// Gives a form to a row that has none.
    pub fn insert(&mut self, row: usize, form: &Form)
        requires within { row < length self.old.states }
        requires none { slice_index_or self.old.states row None ≡ None }
        requires spare { length form.now.terms ≤ self.old.spare }
        requires lists { 1 ≤ self.old.lists }
        ensures states { self.new.states ≡ slice_set self.old.states row (Some form.now) }
        ensures cells { self.new.spare + term_count self.new.states ≡ self.old.spare + term_count self.old.states }
    {
        let list = self.pool.make();
        self.pool.push_all(list, form.terms());
        self.entries[row] = Some(Entry {
            constant: form.constant(),
            list,
        });
    }

    /// Replaces an unknown in the form of a row by another form, where that stays in range.
    pub fn replace(&mut self, row: usize, serial: u32, new: &Form)
        requires others { All (λ t. t.serial ≢ serial) new.now.terms }
        requires fits { (p : LinearForm) → slice_index_or self.old.states row None ≡ Some p → Stays serial new.now p }
        requires spare { length new.now.terms ≤ self.old.spare }
        ensures states { self.new.states ≡ slice_set self.old.states row (option_map (replaced serial new.now) (slice_index_or self.old.states row None)) }
        ensures lists { self.new.lists ≡ self.old.lists }
        ensures cells { self.new.spare + term_count self.new.states ≡ self.old.spare + term_count self.old.states }
    {
        let Some(entry) = entry_at(&self.entries, row) else {
            return;
        };
        let Some(coefficient) = self.pool.remove(entry.list, serial) else {
            return;
        };
        self.pool.splice_add(entry.list, coefficient, new.terms());
        let constant = constant_of_sum(entry.constant, coefficient, new.constant()) as i32;
        self.entries[row] = Some(Entry {
            constant,
            list: entry.list,
        });
    }
}

/// What stands at a row; beyond the last, nothing.
fn entry_at(entries: &Vec<Option<Entry>>, row: usize) -> Option<Entry>
    ensures { result ≡ slice_index_or entries.now.items row None }
{
    *entries.get(row)?
}

/// A constant plus `f` times another, where `f` is in units of 2^-28.
pub fn constant_of_sum(constant: i32, f: i64, other: i32) -> i64
    requires { unsigned_abs f < 2 ^ 44 }
    ensures { result ≡ constant +ℤ times_fraction f other }
{
    i64::from(constant) + Ratio::fraction(f).times(i64::from(other))
}
