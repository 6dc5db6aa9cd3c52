//! Groups, and the statements that change what symbols mean.

ghost use Rattle.std.specs.Prelude.{◌≡◌, ◌<◌, Ok, Err, length, true, false, IfOk, OnOk};
ghost use Rattle.mp_symbols.specs.Groups.{close_group};
ghost use Rattle.mp_values.specs.Outcome.{Gives, IsWhole, change};
ghost use Rattle.mp_values.specs.declared.fault.Fault.TheVariants.{NoMemory as WantOfMemory};
ghost use Rattle.mp_acts.specs.Counts.{IsWithin};
ghost use Rattle.mp_acts.specs.State.{counts, symbol_count, internal_count};
ghost use Rattle.mp_acts.specs.Reach.{reach, reach_of_meaning};
ghost use Rattle.mp_acts.specs.Groups as groups;
ghost use Rattle.mp_acts.specs.Groups.{IsUndoneInPart, with_symbols};
ghost use Rattle.mp_acts.specs.Variables.{IsForgetting};

use crate::State;
use mp_scaled::NoMemory;
use mp_symbols::Closed;
use mp_values::{Delimiters, Fault, Meaning, SymbolCommand, Value};

impl State {
    /// Begins a group.
    pub fn do_begin_group(&mut self) -> Result<(), Fault>
        ensures exact { Gives result self.new (change groups.begin_group self.old) }
        ensures whole { IsWhole result self.old self.new }
        ensures counts { IsWithin (counts self.old) (counts self.new) }
    {
        self.symbols.open_group()?;
        Ok(())
    }

    /// Ends a group: what was changed for it is undone, the newest change first.
    ///
    /// Want of memory may leave the older ones.
    #[tactic(auto, using(crate::proofs::GroupLemmas::undone_none, crate::proofs::GroupLemmas::undone_more))]
    pub fn do_end_group(&mut self) -> Result<(), Fault>
        ensures exact { Gives result self.new (change groups.end_group self.old) }
        ensures part { result ≡ Err WantOfMemory → IsUndoneInPart self.old self.new }
        ensures counts { IsWithin (counts self.old) (counts self.new) }
    {
        'changes: while self.undo()? {}
        Ok(())
    }

    /// Undoes the newest change of the group. The answer is no where the group has ended. Want of memory may leave the
    /// variables of a tag that was taken away.
    #[tactic(auto, unfolding(crate::specs::Groups::end_group, crate::specs::Groups::undo_group, crate::specs::Variables::without_root))]
    fn undo(&mut self) -> Result<bool, NoMemory>
        ensures more { result ≡ Ok true → groups.end_group self.new ≡ groups.end_group self.old }
        ensures last { result ≡ Ok false → self.new ≡ groups.end_group self.old }
        ensures fewer { result ≡ Ok true
            → length self.new.symbols.saved < length self.old.symbols.saved }
        ensures symbols { self.new.symbols ≡ (close_group self.old.symbols).1 }
        ensures rest { IsForgetting (with_symbols self.old self.new.symbols) self.new }
        ensures counts { IsWithin (counts self.old) (counts self.new) }
    {
        match self.undo_newest() {
            Closed::Meaning(_, given_up) => {
                self.forget(given_up)?;
                Ok(true)
            }
            Closed::Number(_) => Ok(true),
            Closed::Boundary | Closed::NoGroup => Ok(false),
        }
    }

    /// Forgets the variables of a tag that is taken away.
    fn forget(&mut self, given_up: Meaning) -> Result<(), NoMemory>
        ensures exact { OnOk result (self.new ≡ groups.without_tag given_up self.old) }
        ensures rest { IsForgetting self.old self.new }
        ensures counts { IsWithin (counts self.old) (counts self.new) }
    {
        match given_up {
            Meaning::Tag(root) => self.forget_root(root),
            _ => Ok(()),
        }
    }

    /// Does to a symbol what a word does to each symbol of its list: makes it a new tag up to the end of the group, and
    /// for good where no group is open, or makes it a new internal of value 0.
    pub fn do_symbol(&mut self, command: SymbolCommand, symbol: u32) -> Result<(), Fault>
        requires { symbol < symbol_count self.old }
        ensures exact { Gives result self.new (change (groups.with_each command symbol) self.old) }
        ensures whole { IsWhole result self.old self.new }
        ensures counts { IsWithin (counts self.old) (counts self.new) }
    {
        match command {
            SymbolCommand::Save => self.save(symbol),
            SymbolCommand::Newinternal => self.new_internal(symbol),
        }
    }

    #[tactic(auto, unfolding(crate::specs::Groups::save))]
    fn save(&mut self, symbol: u32) -> Result<(), Fault>
        requires { symbol < symbol_count self.old }
        ensures exact { Gives result self.new (change (groups.save symbol) self.old) }
        ensures whole { IsWhole result self.old self.new }
        ensures counts { IsWithin (counts self.old) (counts self.new) }
    {
        Ok(self.save_meaning(symbol)?)
    }

    #[tactic(auto, unfolding(crate::specs::Groups::new_internal))]
    fn new_internal(&mut self, symbol: u32) -> Result<(), Fault>
        requires { symbol < symbol_count self.old }
        ensures exact { Gives result self.new (change (groups.new_internal symbol) self.old) }
        ensures whole { IsWhole result self.old self.new }
        ensures counts { IsWithin (counts self.old) (counts self.new) }
    {
        let k = self.add_internal(0)?;
        self.set_meaning(symbol, Meaning::Internal(k));
        Ok(())
    }

    /// Gives a symbol what another one means; a tag is not shared, but new.
    #[tactic(auto, unfolding(crate::specs::Groups::let_symbol))]
    pub fn do_let(&mut self, symbol: u32, other: u32) -> Result<(), Fault>
        requires symbol { symbol < symbol_count self.old }
        requires other { other < symbol_count self.old }
        ensures exact { Gives result self.new (change (groups.let_symbol symbol other) self.old) }
        ensures whole { IsWhole result self.old self.new }
        ensures counts { IsWithin (counts self.old) (counts self.new) }
    {
        let meaning = copied(self.symbol_meaning(other))?;
        self.set_meaning(symbol, meaning);
        Ok(())
    }

    /// Makes two symbols a pair of delimiters. It takes no memory.
    #[tactic(auto, unfolding(crate::specs::Groups::delimiters))]
    pub fn do_delimiters(&mut self, left: u32, right: u32)
        requires left { left < symbol_count self.old }
        requires right { right < symbol_count self.old }
        ensures exact { self.new ≡ groups.delimiters left right self.old }
        ensures counts { IsWithin (counts self.old) (counts self.new) }
    {
        let pair = Delimiters { left, right };
        self.set_meaning(left, Meaning::Left(pair));
        self.set_meaning(right, Meaning::Right(pair));
    }

    /// Gives an internal a known value, up to the end of the group: `WrongType`, `NotKnown`.
    #[tactic(auto, unfolding(crate::specs::Groups::interim))]
    pub fn do_interim(&mut self, k: u32, value: &Value) -> Result<(), Fault>
        requires internal { k < internal_count self.old }
        requires value { IsWithin (reach value.now) (counts self.old) }
        ensures exact { Gives result self.new (groups.interim k value.now self.old) }
        ensures whole { IsWhole result self.old self.new }
        ensures counts { IsWithin (counts self.old) (counts self.new) }
    {
        let form = self.store().operand(b"interim", value)?;
        let value = self.store().known(b"interim", &form)?;
        self.save_internal(k)?;
        self.set_internal(k, value);
        Ok(())
    }
}

/// What a symbol gets that is let have this meaning.
fn copied(meaning: &Meaning) -> Result<Meaning, NoMemory>
    ensures exact { IfOk result (λ new. new ≡ groups.copied meaning.now) }
    ensures within { IfOk result (λ new. IsWithin (reach_of_meaning new) (reach_of_meaning meaning.now)) }
{
    match meaning {
        Meaning::Tag(_) => Ok(Meaning::NewTag),
        _ => meaning.share(),
    }
}
