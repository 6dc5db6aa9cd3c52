//! Which forms hold an unknown.

ghost use Rattle.std.specs.Prelude.{◌≡◌, ◌<◌, ℕ, [], ◌∷◌, ◌++◌, None, drop, Contains, slice_index_or, IfOk, IsTrue, if◌then◌else◌};
ghost use Rattle.mp_solver.specs.Storage.Rows.{holders_of, terms_in, IsListedFor, IsInOrder, StaysListed};

use crate::Terms;
use crate::forms::Forms;
use mp_pool::Term;
use mp_scaled::NoMemory;
use std::alloc::Global;
use std::marker::Model;

/// The rows of forms, which contracts see as a list: a row is the index of the state that has the form. A row may
/// stand there twice.
#[derive(Drop)]
pub struct Rows {
    rows: Vec<usize>,
}

impl Model for Rows {
    ghost use Rattle.std.specs.Prelude.{List, ℕ};

    ghost Value = { List ℕ };

    ghost view = { λ it. it.rows.items };
}

impl Rows {
    pub fn new(alloc: Global) -> Rows
        ensures { result ≡ [] }
    {
        Rows {
            rows: Vec::new(alloc),
        }
    }

    /// Makes room for so many more.
    pub fn reserve(&mut self, more: usize) -> Result<(), NoMemory>
        ensures { self.new ≡ self.old }
    {
        self.rows.reserve(more)?;
        Ok(())
    }

    /// Adds a row where there is room for it, and says whether there was.
    fn add(&mut self, row: usize) -> bool
        ensures { self.new ≡ (if result then self.old ++ row ∷ [] else self.old) }
    {
        if self.rows.len() >= self.rows.capacity() {
            return false;
        }
        self.rows.push_reserved(row);
        true
    }

    /// The rows in order, each once.
    pub fn in_order(&self, alloc: Global) -> Result<Vec<usize>, NoMemory>
        ensures { IfOk result (λ rows. IsInOrder (Contains self.now) rows.items) }
    {
        let mut rows = Vec::from_slice(alloc, &self.rows)?;
        rows.sort_unstable();
        rows.dedup();
        Ok(rows)
    }
}

/// Adds a row for an unknown, and says whether there was room for it.
fn add(holders: &mut Vec<Rows>, serial: u32, row: usize) -> bool
    ensures stays { StaysListed holders.old.items holders.new.items }
    ensures added { IsTrue result → Contains (holders_of holders.new.items serial) row }
{
    let index = (serial as usize).saturating_sub(1);
    if index >= holders.len() {
        return false;
    }
    holders[index].add(row)
}

/// Adds a row for the unknowns of terms, but for those that its form, where it has one, holds already. Says whether
/// there was room for all.
pub fn add_terms(holders: &mut Vec<Rows>, row: usize, forms: &Forms, new: &[Term]) -> bool
    ensures stays { StaysListed holders.old.items holders.new.items }
    ensures added { IsTrue result → IsListedFor holders.old.items row (terms_in (slice_index_or forms.now.states row None)) → IsListedFor holders.new.items row new.now }
{
    match forms.get(row) {
        Some(form) => add_others(holders, row, form.terms(), new),
        None => add_each(holders, row, new),
    }
}

/// Adds a row for the unknowns of terms.
fn add_each(holders: &mut Vec<Rows>, row: usize, new: &[Term]) -> bool
    ensures stays { StaysListed holders.old.items holders.new.items }
    ensures added { IsTrue result → IsListedFor holders.new.items row new.now }
{
    let mut all = true;
    'terms: for term in new {
        if !add(holders, term.serial, row) {
            all = false;
        }
    }
    all
}

/// Adds a row for an unknown, but where one of the terms that are left is of that unknown; those before it are passed.
fn add_unless_next(holders: &mut Vec<Rows>, serial: u32, row: usize, rest: &mut Terms<'_>) -> bool
    ensures stays { StaysListed holders.old.items holders.new.items }
    ensures rest { (n : ℕ) × (rest.new ≡ drop n rest.old) }
    ensures added { IsTrue result → IsListedFor holders.old.items row rest.new → Contains (holders_of holders.new.items serial) row }
{
    if rest.skip_to(serial) {
        return true;
    }
    add(holders, serial, row)
}

/// Adds a row for the unknowns of its new terms, where its old terms have been added already.
fn add_others(holders: &mut Vec<Rows>, row: usize, old: Terms<'_>, new: &[Term]) -> bool
    ensures stays { StaysListed holders.old.items holders.new.items }
    ensures added { IsTrue result → IsListedFor holders.old.items row old.entry → IsListedFor holders.new.items row new.now }
{
    let mut rest = old;
    let mut all = true;
    'terms: for term in new {
        if !add_unless_next(holders, term.serial, row, &mut rest) {
            all = false;
        }
    }
    all
}

/// Makes room for so many more rows for each unknown of these terms.
pub fn make_room(holders: &mut Vec<Rows>, terms: &[Term], more: usize) -> Result<(), NoMemory>
    ensures { holders.new.items ≡ holders.old.items }
{
    'terms: for term in terms {
        reserve(holders, term.serial, more)?;
    }
    Ok(())
}

fn reserve(holders: &mut Vec<Rows>, serial: u32, more: usize) -> Result<(), NoMemory>
    ensures { holders.new.items ≡ holders.old.items }
{
    let index = (serial as usize).saturating_sub(1);
    if index >= holders.len() {
        return Ok(());
    }
    holders[index].reserve(more)
}

/// All rows below a number, in order.
pub fn all_rows(alloc: Global, count: usize) -> Result<Vec<usize>, NoMemory>
    ensures { IfOk result (λ rows. IsInOrder (λ row. row < count) rows.items) }
{
    let mut rows = Vec::with_capacity(alloc, count)?;
    'rows: for row in 0..count {
        rows.push(row)?;
    }
    Ok(rows)
}
