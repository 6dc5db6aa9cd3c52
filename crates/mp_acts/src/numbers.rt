//! Number tokens.

ghost use Rattle.std.specs.Prelude.{◌≡◌, ◌≢◌, Err, IfOk};
ghost use Rattle.mp_values.specs.Outcome.{Gives, lift};
ghost use Rattle.mp_values.specs.declared.fault.Fault.TheVariants.{NoMemory as WantOfMemory};
ghost use Rattle.mp_acts.specs.Counts.{nothing};
ghost use Rattle.mp_acts.specs.Numbers as numbers;
ghost use Rattle.mp_acts.specs.Reach.{reach};

use crate::State;
use mp_forms::Form;
use mp_scaled::make_scaled;
use mp_values::{Fault, Scaled, Value};

impl State {
    /// A number token.
    #[tactic(auto, unfolding(mp_ops::specs::Store::reach_of_terms))]
    pub fn number(&self, value: Scaled) -> Value
        ensures exact { result ≡ numbers.known_number value }
        ensures within { reach result ≡ nothing }
    {
        Value::Numeric(Form::constant_of(self.alloc, value.units()))
    }

    /// Two number tokens with a slash between them: `DivisionByZero`, `Overflow`. It takes no memory.
    #[tactic(auto, unfolding(crate::specs::Numbers::fraction))]
    pub fn fraction(&self, over: Scaled, under: Scaled) -> Result<Value, Fault>
        ensures exact { Gives result self.now (lift (numbers.fraction over under) self.now) }
        ensures sure { result ≢ Err WantOfMemory }
        ensures within { IfOk result (λ v. reach v ≡ nothing) }
    {
        let units = make_scaled(i64::from(over.units()), i64::from(under.units()))?;
        Ok(self.number(Scaled::new(units)))
    }
}
