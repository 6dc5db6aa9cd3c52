//! The tokens of a file, over the table of names.

ghost use Rattle.std.specs.Prelude.{◌≡◌, ◌+◌, ◌≤◌, length, All, IfOk, OnOk, OnErr};
ghost use Rattle.mp_tokens.specs.Items.{file_items, tokens_in, IsNumbered};
ghost use Rattle.mp_acts.specs.Counts.{IsWithin};
ghost use Rattle.mp_acts.specs.State.{counts};
ghost use Rattle.mp_acts.specs.Tokens.{with_file, GainsSomeNames};

use crate::State;
use mp_scaled::NoMemory;
use mp_tokens::{Tokens, items_of_file};

impl State {
    /// The tokens of a file. The table of names gains those that it lacked, in the order in which they first come,
    /// each as a new tag.
    ///
    /// Want of memory leaves the names of some first part of the file in it.
    #[tactic(auto, using(crate::proofs::MeaningLemmas::more_named))]
    pub fn tokens_of_file(&mut self, bytes: &[u8]) -> Result<Tokens, NoMemory>
        ensures tokens { IfOk result (λ tokens. tokens
            ≡ tokens_in self.new.symbols.names (file_items bytes.now)) }
        ensures names { OnOk result (self.new ≡ with_file self.old bytes.now) }
        ensures symbols { IfOk result (All (IsNumbered self.new.symbols.names)) }
        ensures length { IfOk result (λ tokens. length tokens ≤ length bytes.now + 1) }
        ensures err { OnErr result (GainsSomeNames self.old self.new (file_items bytes.now)) }
        ensures counts { IsWithin (counts self.old) (counts self.new) }
    {
        let tokens = items_of_file(self.alloc, bytes, &mut self.symbols)?;
        Ok(tokens)
    }
}
