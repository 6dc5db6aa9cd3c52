//! What is done to one list: its cells come from the spare ones, chain 0, and go back to them.

ghost use Rattle.std.specs.Prelude.{◌≡◌, ◌≢◌, ◌<◌, ◌≤◌, ◌+◌, ◌^◌, ◌++◌, [], ◌∷◌, length, option_map};
ghost use Rattle.mp_pool.specs.Terms.{SerialsDecrease, AreTerms, without, term_of};
ghost use Rattle.mp_pool.specs.Storage.Chains.{chain_of};
ghost use Rattle.mp_pool.specs.Storage.Frames.{OnlyTwo};
ghost use Rattle.mp_pool.specs.Storage.Merge.{FrontAtMost};

use crate::Term;
use crate::cells::Cells;
use crate::merge::coefficient_at;
use crate::splice::move_rest;

/// Adds a term at the end of a list.
pub fn push(cells: &mut Cells, chain: usize, term: Term)
    requires is { chain < length cells.old }
    requires other { 0 ≢ chain }
    requires spare { 0 < length (chain_of cells.old 0) }
    ensures rest { OnlyTwo cells.old cells.new 0 chain }
    ensures list { chain_of cells.new chain ≡ chain_of cells.old chain ++ term ∷ [] }
    ensures cells { length (chain_of cells.new 0) + length (chain_of cells.new chain)
        ≡ length (chain_of cells.old 0) + length (chain_of cells.old chain) }
{
    cells.put_first(0, term);
    cells.step(0, chain);
}

/// Adds terms at the end of a list.
pub fn push_all(cells: &mut Cells, chain: usize, terms: &[Term])
    requires is { chain < length cells.old }
    requires other { 0 ≢ chain }
    requires terms { AreTerms terms.now }
    requires spare { length terms.now ≤ length (chain_of cells.old 0) }
    ensures rest { OnlyTwo cells.old cells.new 0 chain }
    ensures list { chain_of cells.new chain ≡ chain_of cells.old chain ++ terms.now }
    ensures cells { length (chain_of cells.new 0) + length (chain_of cells.new chain)
        ≡ length (chain_of cells.old 0) + length (chain_of cells.old chain) }
{
    'pushing: for term in terms {
        push(cells, chain, *term);
    }
}

/// Gives all cells of a list back.
pub fn clear(cells: &mut Cells, chain: usize)
    requires is { chain < length cells.old }
    requires other { 0 ≢ chain }
    ensures rest { OnlyTwo cells.old cells.new 0 chain }
    ensures list { chain_of cells.new chain ≡ [] }
    ensures cells { length (chain_of cells.new 0) + length (chain_of cells.new chain)
        ≡ length (chain_of cells.old 0) + length (chain_of cells.old chain) }
{
    'clearing: while !cells.is_empty(chain) {
        cells.step(chain, 0);
    }
}

/// Moves the terms of greater serials to chain 1.
fn skip(cells: &mut Cells, chain: usize, serial: u32)
    requires is { chain < length cells.old }
    requires from { 3 ≤ chain }
    requires ordered { SerialsDecrease (2 ^ 32) (chain_of cells.old chain) }
    ensures rest { OnlyTwo cells.old cells.new chain 1 }
    ensures cells { length (chain_of cells.new chain) + length (chain_of cells.new 1)
        ≡ length (chain_of cells.old chain) + length (chain_of cells.old 1) }
    ensures ordered { SerialsDecrease (2 ^ 32) (chain_of cells.new chain) }
    ensures front { FrontAtMost serial (chain_of cells.new chain) }
    ensures others { chain_of cells.new 1 ++ without serial (chain_of cells.new chain)
        ≡ chain_of cells.old 1 ++ without serial (chain_of cells.old chain) }
    ensures same { term_of serial (chain_of cells.new chain) ≡ term_of serial (chain_of cells.old chain) }
{
    'skipping: while !cells.is_empty(chain) {
        if cells.first(chain).serial <= serial {
            break 'skipping;
        }
        cells.step(chain, 1);
    }
}

/// Gives the first cell back, where its term is that of the unknown, and answers its coefficient.
fn take_first(cells: &mut Cells, chain: usize, serial: u32) -> Option<i64>
    requires is { chain < length cells.old }
    requires from { 3 ≤ chain }
    requires ordered { SerialsDecrease (2 ^ 32) (chain_of cells.old chain) }
    requires front { FrontAtMost serial (chain_of cells.old chain) }
    ensures rest { OnlyTwo cells.old cells.new chain 0 }
    ensures list { chain_of cells.new chain ≡ without serial (chain_of cells.old chain) }
    ensures found { result ≡ option_map (λ t. t.coefficient) (term_of serial (chain_of cells.old chain)) }
    ensures cells { length (chain_of cells.new 0) + length (chain_of cells.new chain)
        ≡ length (chain_of cells.old 0) + length (chain_of cells.old chain) }
{
    match coefficient_at(cells, chain, serial) {
        Some(coefficient) => {
            cells.step(chain, 0);
            Some(coefficient)
        }
        None => None,
    }
}

/// Takes the term of an unknown out of a list, and answers its coefficient, where it has one.
pub fn remove(cells: &mut Cells, chain: usize, serial: u32) -> Option<i64>
    requires is { chain < length cells.old }
    requires from { 3 ≤ chain }
    requires terms { AreTerms (chain_of cells.old chain) }
    requires done { chain_of cells.old 1 ≡ [] }
    ensures rest { OnlyTwo cells.old cells.new 0 chain }
    ensures list { chain_of cells.new chain ≡ without serial (chain_of cells.old chain) }
    ensures found { result ≡ option_map (λ t. t.coefficient) (term_of serial (chain_of cells.old chain)) }
    ensures cells { length (chain_of cells.new 0) + length (chain_of cells.new chain)
        ≡ length (chain_of cells.old 0) + length (chain_of cells.old chain) }
{
    skip(cells, chain, serial);
    let found = take_first(cells, chain, serial);
    move_rest(cells, chain);
    cells.exchange(chain, 1);
    found
}
