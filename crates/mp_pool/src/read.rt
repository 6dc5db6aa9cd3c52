//! The terms of a chain, one after another.

ghost use Rattle.std.specs.Prelude.{◌≡◌, ◌<◌, [], ◌∷◌, drop, length, IsNone, IfSome};
ghost use Rattle.std.specs.Iterator.{YieldsFirst, item_count};
ghost use Rattle.mp_pool.specs.Storage.Chains.{terms_from, AreWithin};

use crate::Term;
use crate::cells::Cell;
use std::marker::Model;

/// The terms of one list of a pool, which contracts see as the list of those that are left.
#[derive(Debug, Drop)]
pub struct TermsOf<'a> {
    cells: &'a [Cell],
    at: u32,
    left: u32,
}

impl<'a> Model for TermsOf<'a> {
    ghost use Rattle.std.specs.Prelude.{List};
    ghost use Rattle.mp_pool.specs.declared.Term.{Term};
    ghost use Rattle.mp_pool.specs.Storage.Chains.{terms_from, AreWithin};

    ghost Value = { List Term };

    ghost view = { λ it. terms_from it.cells.now it.left it.at };

    ghost invariant = { λ it. AreWithin it.cells.now it.left it.at };
}

impl<'a> TermsOf<'a> {
    /// So many terms from a cell on.
    pub(crate) fn of(cells: &'a [Cell], at: u32, left: u32) -> TermsOf<'a>
        requires { AreWithin cells.now left at }
        ensures { result ≡ terms_from cells.now left at }
    {
        TermsOf { cells, at, left }
    }

    /// How many are left.
    pub fn len(&self) -> u32
        ensures { result ≡ length self.now }
    {
        self.left
    }

    /// The next term, which stays.
    pub fn peek(&self) -> Option<Term>
        ensures none { IsNone result → self.now ≡ [] }
        ensures some { IfSome result (λ t. self.now ≡ t ∷ drop 1 self.now) }
    {
        if self.left == 0 {
            return None;
        }
        Some(self.cells[self.at as usize].term)
    }

    /// Passes the next term.
    pub fn step(&mut self)
        requires { 0 < length self.old }
        ensures { self.new ≡ drop 1 self.old }
    {
        self.at = self.cells[self.at as usize].next;
        self.left -= 1;
    }
}

impl<'a> Iterator for TermsOf<'a> {
    type Item = Term;

    ghost next_gives = { YieldsFirst (λ rest. rest) };

    ghost remaining = { item_count (λ rest. rest) };

    fn next(&mut self) -> Option<Term> {
        let term = self.peek()?;
        self.step();
        Some(term)
    }
}
