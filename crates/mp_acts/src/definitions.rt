//! Definitions of macros, as they are read.

ghost use Rattle.std.specs.Prelude.{◌≡◌, ◌<◌, OnOk};
ghost use Rattle.mp_values.specs.Outcome.{Gives};
ghost use Rattle.mp_macro.specs.Definitions.{read, start};
ghost use Rattle.mp_acts.specs.Counts.{IsWithin, greatest};
ghost use Rattle.mp_acts.specs.Definitions.{group_symbols};
ghost use Rattle.mp_acts.specs.Reach.{reach_of_item};
ghost use Rattle.mp_acts.specs.State.{counts, symbol_count};

use crate::State;
use mp_macro::{GroupSymbols, MacroReader, bodies_hold_what_is_read, symbols_stay_numbered};
use mp_values::{Definition, Fault, Item};

/// The symbols between which the body of a variable's macro stands: `begingroup` and `endgroup`, which get their numbers
/// behind the two parentheses.
const GROUP: GroupSymbols = GroupSymbols { begin: 2, end: 3 };

impl State {
    /// A definition behind the word that it begins with.
    #[tactic(auto, unfolding(crate::specs::Counts::greatest))]
    pub fn begin_definition(&self, word: Definition) -> MacroReader
        ensures exact { result ≡ start word group_symbols }
        ensures within { result.symbol < symbol_count self.now }
        ensures body { IsWithin (greatest reach_of_item result.body) (counts self.now) }
    {
        MacroReader::new(self.alloc, word, GROUP)
    }

    /// One more item of a definition, by what symbols mean now. What the items that its body holds speak of is there.
    pub fn read_item(&self, reader: &mut MacroReader, item: Item) -> Result<(), Fault>
        requires item { IsWithin (reach_of_item item) (counts self.now) }
        requires symbol { reader.old.symbol < symbol_count self.now }
        requires group { reader.old.group ≡ group_symbols }
        requires body { IsWithin (greatest reach_of_item reader.old.body) (counts self.now) }
        ensures exact { Gives result reader.new (read self.now.symbols.names item reader.old) }
        ensures within { OnOk result (reader.new.symbol < symbol_count self.now) }
        ensures group { OnOk result (reader.new.group ≡ group_symbols) }
        ensures body { OnOk result (IsWithin (greatest reach_of_item reader.new.body) (counts self.now)) }
    {
        symbols_stay_numbered();
        bodies_hold_what_is_read();
        reader.read(&self.symbols, item)?;
        Ok(())
    }
}
