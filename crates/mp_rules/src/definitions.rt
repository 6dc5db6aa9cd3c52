//! Definitions of macros: their items are taken as they stand, until the definition is whole.

ghost use Rattle.std.specs.Prelude.{◌≡◌, IfOk};
ghost use Rattle.mp_macro.specs.Definitions.{start};
ghost use Rattle.mp_acts.specs.Counts.{IsWithin};
ghost use Rattle.mp_acts.specs.Definitions.{group_symbols};
ghost use Rattle.mp_rules.specs.Definitions.{pending_read, definition_read};
ghost use Rattle.mp_rules.specs.Machine.{things};
ghost use Rattle.mp_rules.specs.Meaning.{the};
ghost use Rattle.mp_rules.specs.Promises.{reach_of_reading, Uses, ActsReading, UsesReading};
ghost use Rattle.mp_rules.specs.Reach.{reach_of_pending};
ghost use Rattle.mp_rules.specs.Rules as rules;

use crate::evaluator::Evaluator;
use mp_expand::Front;
use mp_macro::MacroReader;
use mp_report::SourceError;
use mp_values::{Definition, Pending, Stop};

impl Evaluator {
    /// A definition, behind the word that it begins with. It takes effect before the front behind it is got.
    pub(crate) fn definition(&mut self, word: Definition) -> Result<(), Stop>
        ensures { Uses (rules.definition word) result self.old self.new }
    {
        let made = self.read_definition(word)?.finish()?;
        self.define(made)
    }

    /// The items of a definition, until it is whole.
    #[tactic(auto, using(crate::proofs::DefinitionLemmas::read_begun, crate::proofs::DefinitionLemmas::read_step, crate::proofs::DefinitionLemmas::take_stops, crate::proofs::DefinitionLemmas::read_stops, crate::proofs::DefinitionLemmas::text_ends))]
    fn read_definition(&mut self, word: Definition) -> Result<MacroReader, Stop>
        ensures { UsesReading (definition_read (start word group_symbols)) result self.old self.new }
    {
        let mut reader = self.acts.begin_definition(word);
        self.see(Front::EndOfText);
        'items: while !reader.is_whole() {
            let Some(taken) = self.take()? else {
                return Err(Stop::Refused(SourceError::FileEndedInText));
            };
            reader = self.read_pending(reader, taken)?;
        }
        Ok(reader)
    }

    /// What was taken, as a definition reads it.
    #[tactic(auto, using(crate::proofs::DefinitionLemmas::read_fault_stops))]
    fn read_pending(&self, reader: MacroReader, taken: Pending) -> Result<MacroReader, Stop>
        requires reader { IsWithin (reach_of_reading reader) (things self.now) }
        requires group { reader.group ≡ group_symbols }
        requires taken { IsWithin (reach_of_pending taken) (things self.now) }
        ensures read { ActsReading (pending_read taken reader) result self.now self.now }
        ensures group { IfOk result (λ now. now.group ≡ group_symbols) }
    {
        match taken {
            Pending::Item(item) => {
                let mut now = reader;
                self.acts.read_item(&mut now, item)?;
                Ok(now)
            }
            Pending::Turn(_) => Ok(reader),
        }
    }
}
