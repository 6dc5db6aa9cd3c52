//! The table of names.

ghost use Rattle.std.specs.Prelude.{◌≡◌, ◌↔◌, ◌<◌, [], ◌∷◌, ◌++◌, length, Some, slice_get, true, false, IsTrue, IsOk, IsSome, IfOk, OnOk, OnErr};
ghost use Rattle.mp_symbols.specs.Names.{number_in, name_in, meaning_in, with_name};
ghost use Rattle.mp_symbols.specs.Groups.{with_symbol, with_internal, open_group, save, save_internal, close_group, starts_group, IsKnown};
ghost use Rattle.mp_symbols.specs.Tables.{is_open};

use crate::closed::Closed;
use crate::saved::Saved;
use indexmap::IndexMap;
use mp_scaled::NoMemory;
use std::alloc::Global;
use std::marker::Model;
use std::mem;

/// Names, each with its number and its meaning; internals, each with its number and its value; and what the groups
/// that are open give back when they end. Numbers count from 0.
#[derive(Drop)]
pub struct Symbols<M> {
    entries: IndexMap<Vec<u8>, M>,
    internals: Vec<i32>,
    saved: Vec<Saved<M>>,
}

impl<M> Model for Symbols<M> {
    ghost use Rattle.std.specs.Prelude.{List, ℕ, ◌≡◌, ◌≤◌, ◌^◌, true, length, map, reverse};
    ghost use Rattle.std.specs.Str.{bytes_eq};
    ghost use Rattle.indexmap.specs.IndexMap.{IsUnique, index_map_len};
    ghost use Rattle.mp_symbols.specs.Tables.{Table, is_sound};
    ghost use Rattle.mp_symbols.specs.Coding.{table_code};

    ghost Value = { Table M };

    ghost coded = { table_code M.code };

    ghost view = { λ s. record { names = map (λ e. (e.0.items, e.1)) s.entries.entries; internals = s.internals.items; saved = reverse s.saved.items } };

    ghost invariant = { λ s. IsUnique (λ a b. bytes_eq a.items b.items) s.entries × (index_map_len s.entries ≤ 2 ^ 32) × (is_sound (index_map_len s.entries) (length s.internals.items) (reverse s.saved.items) ≡ true) };
}

impl<M> Symbols<M> {
    /// A table without names and internals; no group is open.
    pub fn new(alloc: Global) -> Symbols<M>
        ensures { result ≡ record { names = []; internals = []; saved = [] } }
    {
        Symbols {
            entries: IndexMap::new(alloc),
            internals: Vec::new(alloc),
            saved: Vec::new(alloc),
        }
    }

    /// Whether a name has that number.
    pub fn has(&self, symbol: u32) -> bool
        ensures { IsTrue result ↔ symbol < length self.now.names }
    {
        (symbol as usize) < self.entries.len()
    }

    /// Whether an internal has that number.
    pub fn has_internal(&self, k: u32) -> bool
        ensures { IsTrue result ↔ k < length self.now.internals }
    {
        (k as usize) < self.internals.len()
    }

    /// The name with that number.
    pub fn name_of(&self, symbol: u32) -> &[u8]
        requires { symbol < length self.now.names }
        ensures name { name_in self.now.names symbol ≡ Some result.now }
        ensures number { number_in self.now.names result.now ≡ Some symbol }
    {
        match self.entries.get_index(symbol as usize) {
            Some((name, _)) => name.as_slice(),
            None => &[],
        }
    }

    /// The meaning of the name with that number.
    pub fn meaning(&self, symbol: u32) -> &M
        requires { symbol < length self.now.names }
        ensures { meaning_in self.now.names symbol ≡ Some result.now }
    {
        &self.entries[symbol as usize]
    }

    /// Gives the name with that number another meaning, and answers the old one. No group saves it.
    pub fn set_meaning(&mut self, symbol: u32, new: M) -> M
        requires { symbol < length self.old.names }
        ensures old { meaning_in self.old.names symbol ≡ Some result }
        ensures table { self.new ≡ with_symbol self.old symbol new }
    {
        mem::replace(&mut self.entries[symbol as usize], new)
    }

    /// The value of the internal with that number.
    pub fn internal(&self, k: u32) -> i32
        requires { k < length self.now.internals }
        ensures { slice_get self.now.internals k ≡ Some result }
    {
        self.internals[k as usize]
    }

    /// Gives the internal with that number another value. No group saves the old one.
    pub fn set_internal(&mut self, k: u32, value: i32)
        requires { k < length self.old.internals }
        ensures { self.new ≡ with_internal self.old k value }
    {
        self.internals[k as usize] = value;
    }

    /// Undoes the newest thing that a group saved, and says which it was. Where nothing is left to undo in
    /// the group, the group ends.
    pub fn close_group(&mut self) -> Closed<M>
        ensures exact { (result, self.new) ≡ close_group self.old }
        ensures boundary { (result ≡ Closed.Boundary) ↔ (starts_group self.old.saved ≡ true) }
        ensures no_group { (result ≡ Closed.NoGroup) ↔ (is_open self.old.saved ≡ false) }
        ensures known { IsKnown self.new result }
    {
        match self.saved.pop() {
            Some(Saved::Meaning(symbol, old)) => Closed::Meaning(
                symbol,
                self.set_meaning(symbol, old),
            ),
            Some(Saved::Number(k, old)) => {
                self.set_internal(k, old);
                Closed::Number(k)
            }
            Some(Saved::Boundary) => Closed::Boundary,
            None => Closed::NoGroup,
        }
    }
}

// The number at an index, where the numbers reach that far.
fn number_at(index: usize) -> Result<u32, NoMemory>
    ensures { IfOk result (λ number. number ≡ index) }
{
    match u32::try_from(index) {
        Ok(number) => Ok(number),
        Err(_) => Err(NoMemory),
    }
}

impl<M: Drop> Symbols<M> {
    /// The number of a name. A name that is there keeps its number and its meaning, and wants no memory. A new one
    /// gets the next number, with `fresh` as its meaning.
    ///
    /// Want of memory is also answered where all numbers are used up; the table is then as it was.
    pub fn number_of(&mut self, name: &[u8], fresh: M) -> Result<u32, NoMemory>
        ensures number { IfOk result (λ symbol. number_in self.new.names name.now ≡ Some symbol) }
        ensures within { IfOk result (λ symbol. symbol < length self.new.names) }
        ensures table { OnOk result (self.new ≡ record self.old { names = with_name self.old.names name.now fresh }) }
        ensures present { IsSome (number_in self.old.names name.now) → IsOk result }
        ensures err { OnErr result (self.new ≡ self.old) }
    {
        if let Some(index) = self.entries.get_index_of(name) {
            return Ok(index as u32);
        }
        let symbol = number_at(self.entries.len())?;
        let name = Vec::from_slice(*self.entries.allocator(), name)?;
        self.entries.insert(name, fresh)?;
        Ok(symbol)
    }

    /// One more internal, with that value; its number is the next.
    ///
    /// Want of memory is also answered where all numbers are used up; the table is then as it was.
    pub fn new_internal(&mut self, value: i32) -> Result<u32, NoMemory>
        ensures number { IfOk result (λ k. k ≡ length self.old.internals) }
        ensures table { OnOk result (self.new ≡ record self.old { internals = self.old.internals ++ value ∷ [] }) }
        ensures err { OnErr result (self.new ≡ self.old) }
    {
        let k = number_at(self.internals.len())?;
        self.internals.push(value)?;
        Ok(k)
    }

    /// Begins a group. Want of memory leaves the table as it was.
    pub fn open_group(&mut self) -> Result<(), NoMemory>
        ensures ok { OnOk result (self.new ≡ open_group self.old) }
        ensures err { OnErr result (self.new ≡ self.old) }
    {
        self.saved.push(Saved::Boundary)?;
        Ok(())
    }

    /// Gives the name with that number a fresh meaning, and its old one back when the group ends. Outside a group
    /// the old one is given up, and that wants no memory.
    ///
    /// Want of memory leaves the table as it was.
    pub fn save(&mut self, symbol: u32, fresh: M) -> Result<(), NoMemory>
        requires { symbol < length self.old.names }
        ensures ok { OnOk result (self.new ≡ save self.old symbol fresh) }
        ensures outside { (is_open self.old.saved ≡ false) → IsOk result }
        ensures err { OnErr result (self.new ≡ self.old) }
    {
        if self.saved.is_empty() {
            self.set_meaning(symbol, fresh);
            return Ok(());
        }
        self.saved.reserve(1)?;
        let old = mem::replace(&mut self.entries[symbol as usize], fresh);
        self.saved.push(Saved::Meaning(symbol, old))?;
        Ok(())
    }

    /// Gives the internal with that number its present value back when the group ends. Outside a group it does
    /// nothing, and wants no memory.
    ///
    /// Want of memory leaves the table as it was.
    pub fn save_internal(&mut self, k: u32) -> Result<(), NoMemory>
        requires { k < length self.old.internals }
        ensures ok { OnOk result (self.new ≡ save_internal self.old k) }
        ensures outside { (is_open self.old.saved ≡ false) → IsOk result }
        ensures err { OnErr result (self.new ≡ self.old) }
    {
        let value = self.internal(k);
        if self.saved.is_empty() {
            return Ok(());
        }
        self.saved.push(Saved::Number(k, value))?;
        Ok(())
    }
}
