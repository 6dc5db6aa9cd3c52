//! The table of names of a state: its changes, each of which leaves meanings that speak of what there is.

ghost use Rattle.std.specs.Prelude.{◌≡◌, ◌<◌, ◌++◌, [], ◌∷◌, length, All, IfOk, OnOk, OnErr};
ghost use Rattle.mp_symbols.specs.Groups as table;
ghost use Rattle.mp_values.specs.declared.meaning.Meaning.TheVariants.{NewTag};
ghost use Rattle.mp_acts.specs.Counts.{IsWithin};
ghost use Rattle.mp_acts.specs.Groups.{with_symbols};
ghost use Rattle.mp_acts.specs.Reach.{reach_of_meaning};
ghost use Rattle.mp_acts.specs.State.{counts, symbol_count, internal_count};

use crate::State;
use mp_scaled::NoMemory;
use mp_symbols::{Closed, Symbols};
use mp_values::Meaning;

impl State {
    /// The table, which is lent.
    pub fn table(&self) -> &Symbols<Meaning>
        ensures exact { result.now ≡ self.now.symbols }
        ensures within { All (λ entry. IsWithin (reach_of_meaning entry.1) (counts self.now)) result.now.names }
    {
        &self.symbols
    }

    /// Gives a symbol another meaning.
    #[tactic(auto, using(crate::proofs::MeaningLemmas::more_set))]
    pub(crate) fn set_meaning(&mut self, symbol: u32, new: Meaning)
        requires symbol { symbol < symbol_count self.old }
        requires within { IsWithin (reach_of_meaning new) (counts self.old) }
        ensures exact { self.new ≡ with_symbols self.old (table.with_symbol self.old.symbols symbol new) }
        ensures counts { IsWithin (counts self.old) (counts self.new) }
    {
        self.symbols.set_meaning(symbol, new);
    }

    /// Makes a symbol a new tag, up to the end of the group.
    #[tactic(auto, using(crate::proofs::MeaningLemmas::more_saved))]
    pub(crate) fn save_meaning(&mut self, symbol: u32) -> Result<(), NoMemory>
        requires { symbol < symbol_count self.old }
        ensures ok { OnOk result (self.new
            ≡ with_symbols self.old (table.save self.old.symbols symbol NewTag)) }
        ensures err { OnErr result (self.new ≡ self.old) }
        ensures counts { IsWithin (counts self.old) (counts self.new) }
    {
        self.symbols.save(symbol, Meaning::NewTag)?;
        Ok(())
    }

    /// One more internal, of that value.
    pub(crate) fn add_internal(&mut self, value: i32) -> Result<u32, NoMemory>
        ensures number { IfOk result (λ k. k ≡ length self.old.symbols.internals) }
        ensures ok { OnOk result (self.new ≡ with_symbols self.old (record self.old.symbols {
          internals = self.old.symbols.internals ++ value ∷ [];
        })) }
        ensures within { IfOk result (λ k. k < internal_count self.new) }
        ensures err { OnErr result (self.new ≡ self.old) }
        ensures counts { IsWithin (counts self.old) (counts self.new) }
    {
        Ok(self.symbols.new_internal(value)?)
    }

    /// Gives an internal another value.
    pub(crate) fn set_internal(&mut self, k: u32, value: i32)
        requires { k < internal_count self.old }
        ensures exact { self.new ≡ with_symbols self.old (table.with_internal self.old.symbols k value) }
        ensures counts { IsWithin (counts self.old) (counts self.new) }
    {
        self.symbols.set_internal(k, value);
    }

    /// Keeps the present value of an internal for the end of the group.
    pub(crate) fn save_internal(&mut self, k: u32) -> Result<(), NoMemory>
        requires { k < internal_count self.old }
        ensures ok { OnOk result (self.new
            ≡ with_symbols self.old (table.save_internal self.old.symbols k)) }
        ensures err { OnErr result (self.new ≡ self.old) }
        ensures counts { IsWithin (counts self.old) (counts self.new) }
    {
        self.symbols.save_internal(k)?;
        Ok(())
    }

    /// Undoes the newest thing that the innermost group keeps.
    #[tactic(auto, using(crate::proofs::MeaningLemmas::more_closed))]
    pub(crate) fn undo_newest(&mut self) -> Closed<Meaning>
        ensures answer { result ≡ (table.close_group self.old.symbols).0 }
        ensures exact { self.new ≡ with_symbols self.old (table.close_group self.old.symbols).1 }
        ensures counts { IsWithin (counts self.old) (counts self.new) }
    {
        self.symbols.close_group()
    }
}
