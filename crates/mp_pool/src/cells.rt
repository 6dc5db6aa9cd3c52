//! Chains of cells: each chain is a list of terms, and a cell goes from one chain to another.
ghost use Rattle.std.specs.Prelude.{[], sum_by, OnOk, OnErr, ◌≡◌, ◌<◌, ◌≤◌, ◌≢◌, ◌+◌, ◌^◌, ◌++◌, ◌∷◌, List, take, drop, length, slice_set, slice_index_or, cond, nat_eq, ℕ, IsTrue, ◌↔◌};
ghost use Rattle.mp_pool.specs.declared.Term.{Term};
ghost use Rattle.mp_pool.specs.Storage.Frames.{OnlyTwo};
ghost use Rattle.mp_pool.specs.Storage.Chains.{no_term, chain_of, ends_at, cell_at, IsShifted, IsWritten, IsTraded};

use crate::{Term, TermsOf};
use mp_scaled::NoMemory;
use std::alloc::Global;
use std::marker::Model;

#[derive(Clone, Copy, Debug)]
pub struct Cell {
    pub term: Term,
    pub next: u32,
}

#[derive(Clone, Copy, Debug)]
pub struct Ends {
    pub first: u32,
    pub last: u32,
    pub length: u32,
}

#[derive(Drop)]
pub struct Cells {
    cells: Vec<Cell>,
    chains: Vec<Ends>,
}

impl Model for Cells {
    ghost use Rattle.std.specs.Prelude.{[], sum_by, OnOk, OnErr, List};
    ghost use Rattle.mp_pool.specs.declared.Term.{Term};

    ghost Value = { List (List Term) };

    ghost use Rattle.mp_pool.specs.Storage.Chains.{chains_of, IsSound};

    ghost view = { λ p. chains_of p.cells.items p.chains.items };

    ghost invariant = { λ p. IsSound p.cells.items p.chains.items };
}

/// A cell that no term was written to.
const NO_CELL: Cell = Cell {
    term: Term {
        serial: 0,
        coefficient: 0,
    },
    next: 0,
};

impl Cells {
    /// No chain and no cell.
    pub fn new(alloc: Global) -> Cells
        ensures { result ≡ [] }
    {
        Cells {
            cells: Vec::new(alloc),
            chains: Vec::new(alloc),
        }
    }

    /// Adds a chain without cells.
    pub fn add_chain(&mut self) -> Result<(), NoMemory>
        ensures ok { OnOk result (self.new ≡ self.old ++ [] ∷ []) }
        ensures err { OnErr result (self.new ≡ self.old) }
    {
        self.chains.push(Ends {
            first: 0,
            last: 0,
            length: 0,
        })?;
        Ok(())
    }

    /// Adds a cell to a chain that has none.
    pub fn load(&mut self, chain: usize) -> Result<(), NoMemory>
        requires is { chain < length self.old }
        requires empty { length (chain_of self.old chain) ≡ 0 }
        requires few { sum_by (λ (ts : List Term). length ts) self.old + 1 < 2 ^ 32 }
        ensures ok { OnOk result (self.new ≡ slice_set self.old chain (no_term ∷ [])) }
        ensures err { OnErr result (self.new ≡ self.old) }
    {
        let cell = self.cells.len() as u32;
        self.cells.push(NO_CELL)?;
        self.chains[chain] = Ends {
            first: cell,
            last: cell,
            length: 1,
        };
        Ok(())
    }

    /// The number of chains.
    pub fn count(&self) -> usize
        ensures { result ≡ length self.now }
    {
        self.chains.len()
    }

    /// The number of all cells.
    pub fn size(&self) -> usize
        ensures { result ≡ sum_by (λ (ts : List Term). length ts) self.now }
    {
        self.cells.len()
    }

    /// The length of a chain; of none, 0.
    pub fn length(&self, chain: usize) -> usize
        ensures { result ≡ length (chain_of self.now chain) }
    {
        if chain >= self.chains.len() {
            return 0;
        }
        count_at(&self.chains, chain) as usize
    }

    /// The terms of a chain.
    pub fn read(&self, chain: usize) -> TermsOf<'_>
        requires { chain < length self.now }
        ensures same { result ≡ chain_of self.now chain }
        ensures few { length result < 2 ^ 32 }
    {
        let ends = self.chains[chain];
        TermsOf::of(&self.cells, ends.first, ends.length)
    }

    pub fn first(&self, chain: usize) -> Term
        requires is { chain < length self.now }
        requires some { 0 < length (chain_of self.now chain) }
        ensures { chain_of self.now chain ≡ result ∷ drop 1 (chain_of self.now chain) }
    {
        term_at(&self.cells, &self.chains, chain)
    }

    pub fn set_first(&mut self, chain: usize, term: Term)
        requires is { chain < length self.old }
        requires some { 0 < length (chain_of self.old chain) }
        ensures { self.new ≡ slice_set self.old chain (term ∷ drop 1 (chain_of self.old chain)) }
    {
        write_first(&mut self.cells, &self.chains, chain, term);
    }

    /// Moves the first cell of a chain to the end of another.
    pub fn shift(&mut self, from: usize, to: usize)
        requires from { from < length self.old }
        requires to { to < length self.old }
        requires other { from ≢ to }
        requires some { 0 < length (chain_of self.old from) }
        ensures { self.new ≡ slice_set (slice_set self.old from (drop 1 (chain_of self.old from)))
            to (chain_of self.old to ++ take 1 (chain_of self.old from)) }
    {
        relink(&mut self.cells, &mut self.chains, from, to);
    }

    /// The same, chain by chain.
    pub fn step(&mut self, from: usize, to: usize)
        requires from { from < length self.old }
        requires to { to < length self.old }
        requires other { from ≢ to }
        requires some { 0 < length (chain_of self.old from) }
        ensures from { chain_of self.new from ≡ drop 1 (chain_of self.old from) }
        ensures to { chain_of self.new to ≡ chain_of self.old to ++ take 1 (chain_of self.old from) }
        ensures rest { OnlyTwo self.old self.new from to }
    {
        self.shift(from, to);
    }

    /// The same for a write.
    pub fn put_first(&mut self, chain: usize, term: Term)
        requires is { chain < length self.old }
        requires some { 0 < length (chain_of self.old chain) }
        ensures chain { chain_of self.new chain ≡ term ∷ drop 1 (chain_of self.old chain) }
        ensures rest { OnlyTwo self.old self.new chain chain }
    {
        self.set_first(chain, term);
    }

    /// Exchanges two chains, whatever they hold.
    pub fn exchange(&mut self, a: usize, b: usize)
        requires a { a < length self.old }
        requires b { b < length self.old }
        ensures a { chain_of self.new a ≡ chain_of self.old b }
        ensures b { chain_of self.new b ≡ chain_of self.old a }
        ensures rest { OnlyTwo self.old self.new a b }
    {
        trade(&mut self.chains, a, b);
    }

    pub fn is_empty(&self, chain: usize) -> bool
        requires { chain < length self.now }
        ensures { IsTrue result ↔ (length (chain_of self.now chain) ≡ 0) }
    {
        count_at(&self.chains, chain) == 0
    }
}

fn count_at(chains: &Vec<Ends>, chain: usize) -> u32
    requires { chain < length chains.now.items }
    ensures { result ≡ (ends_at chains.now.items chain).length }
{
    chains[chain].length
}

fn relink(cells: &mut Vec<Cell>, chains: &mut Vec<Ends>, from: usize, to: usize)
    requires from { from < length chains.old.items }
    requires to { to < length chains.old.items }
    requires other { from ≢ to }
    requires some { 0 < (ends_at chains.old.items from).length }
    requires room { (ends_at chains.old.items to).length + 1 < 2 ^ 32 }
    requires first { (ends_at chains.old.items from).first < length cells.old.items }
    requires last { 0 < (ends_at chains.old.items to).length → (ends_at chains.old.items to).last < length cells.old.items }
    ensures { IsShifted cells.old.items cells.new.items chains.old.items chains.new.items from to }
{
    let cell = chains[from].first;
    let next = cells[cell as usize].next;
    let source = Ends {
        first: next,
        last: chains[from].last,
        length: chains[from].length - 1,
    };
    let target = add_last(cells, chains[to], cell);
    chains[from] = source;
    chains[to] = target;
}

fn add_last(cells: &mut Vec<Cell>, target: Ends, cell: u32) -> Ends
    requires room { target.length + 1 < 2 ^ 32 }
    requires last { 0 < target.length → target.last < length cells.old.items }
    ensures ends { result ≡ record { first = cond (nat_eq target.length 0) cell target.first; last = cell; length = target.length + 1 } }
    ensures same_cells { length cells.new.items ≡ length cells.old.items }
    ensures terms { (k : ℕ) → (cell_at cells.new.items k).term ≡ (cell_at cells.old.items k).term }
    ensures nexts { (k : ℕ) → (0 < target.length → k ≢ target.last) → (cell_at cells.new.items k).next ≡ (cell_at cells.old.items k).next }
    ensures linked { 0 < target.length → (cell_at cells.new.items target.last).next ≡ cell }
{
    if target.length == 0 {
        return Ends {
            first: cell,
            last: cell,
            length: 1,
        };
    }
    cells[target.last as usize].next = cell;
    Ends {
        first: target.first,
        last: cell,
        length: target.length + 1,
    }
}

fn term_at(cells: &Vec<Cell>, chains: &Vec<Ends>, chain: usize) -> Term
    requires is { chain < length chains.now.items }
    requires first { (ends_at chains.now.items chain).first < length cells.now.items }
    ensures { result ≡ (cell_at cells.now.items (ends_at chains.now.items chain).first).term }
{
    cells[chains[chain].first as usize].term
}

fn write_first(cells: &mut Vec<Cell>, chains: &Vec<Ends>, chain: usize, term: Term)
    requires is { chain < length chains.now.items }
    requires first { (ends_at chains.now.items chain).first < length cells.old.items }
    ensures { IsWritten cells.old.items cells.new.items (ends_at chains.now.items chain).first term }
{
    cells[chains[chain].first as usize].term = term;
}

fn trade(chains: &mut Vec<Ends>, a: usize, b: usize)
    requires a { a < length chains.old.items }
    requires b { b < length chains.old.items }
    ensures { IsTraded chains.old.items chains.new.items a b }
{
    let first = chains[a];
    chains[a] = chains[b];
    chains[b] = first;
}
