//! The operators and the words that are primaries by themselves. What an operator makes of its operands, and in which
//! order it refuses them, is said by mp_ops, to which the store of the state is lent.

ghost use Rattle.std.specs.Prelude.{◌≡◌, ◌≤◌, IfOk};
ghost use Rattle.mp_values.specs.Outcome.{Gives};
ghost use Rattle.mp_acts.specs.Counts.{IsWithin};
ghost use Rattle.mp_acts.specs.Operators as operators;
ghost use Rattle.mp_acts.specs.Operators.{store_of};
ghost use Rattle.mp_acts.specs.Reach.{reach};
ghost use Rattle.mp_acts.specs.State.{counts, unknown_count};
ghost use Rattle.mp_ops.specs.Store.{reach_of_form};

use crate::State;
use mp_forms::Form;
use mp_ops::Store;
use mp_values::{Expression, Fault, Nullary, Secondary, Tertiary, Unary, Value};

impl State {
    /// What operators read, which is lent for one of them.
    #[tactic(auto, using(crate::proofs::StoreLemmas::whole_store))]
    pub(crate) fn store(&self) -> Store<'_>
        ensures { result ≡ store_of self.now }
    {
        Store::new(self.alloc, &self.system, self.slots.as_slice())
    }

    /// What an operator makes of the primary behind it: `WrongType`, `CoefficientTooLarge`, `Overflow`, `NotKnown`.
    #[tactic(auto, unfolding(crate::specs::Operators::unary), using(crate::proofs::StoreLemmas::in_store, crate::proofs::StoreLemmas::in_state, crate::proofs::StoreLemmas::given))]
    pub fn unary(&self, op: Unary, value: &Value) -> Result<Value, Fault>
        requires { IsWithin (reach value.now) (counts self.now) }
        ensures exact { Gives result self.now (operators.unary op value.now self.now) }
        ensures within { IfOk result (λ v. IsWithin (reach v) (counts self.now)) }
    {
        self.store().unary(op, value)
    }

    /// What an operator makes of the primaries that it joins: `WrongType`, `CoefficientTooLarge`, `Overflow`, `NotKnown`,
    /// `DivisionByZero`.
    #[tactic(auto, unfolding(crate::specs::Operators::secondary), using(crate::proofs::StoreLemmas::in_store, crate::proofs::StoreLemmas::in_state, crate::proofs::StoreLemmas::given))]
    pub fn secondary(&self, op: Secondary, left: &Value, right: &Value) -> Result<Value, Fault>
        requires left { IsWithin (reach left.now) (counts self.now) }
        requires right { IsWithin (reach right.now) (counts self.now) }
        ensures exact { Gives result self.now
            (operators.secondary op left.now right.now self.now) }
        ensures within { IfOk result (λ v. IsWithin (reach v) (counts self.now)) }
    {
        self.store().secondary(op, left, right)
    }

    /// What an operator makes of the secondaries that it joins: `WrongType`, `CoefficientTooLarge`, `Overflow`, `NotKnown`.
    /// The first is given up for it: a new unknown is put before the terms of a long sum, and none of them is copied.
    #[tactic(auto, unfolding(crate::specs::Operators::tertiary), using(crate::proofs::StoreLemmas::in_store, crate::proofs::StoreLemmas::in_state, crate::proofs::StoreLemmas::given))]
    pub fn tertiary(&self, op: Tertiary, left: Value, right: &Value) -> Result<Value, Fault>
        requires left { IsWithin (reach left) (counts self.now) }
        requires right { IsWithin (reach right.now) (counts self.now) }
        ensures exact { Gives result self.now (operators.tertiary op left right.now self.now) }
        ensures within { IfOk result (λ v. IsWithin (reach v) (counts self.now)) }
    {
        self.store().tertiary(op, left, right)
    }

    /// What an operator makes of the tertiaries that it joins: `WrongType`, `CoefficientTooLarge`, `Overflow`, `NotKnown`,
    /// `Limit`.
    #[tactic(auto, unfolding(crate::specs::Operators::expression), using(crate::proofs::StoreLemmas::in_store, crate::proofs::StoreLemmas::in_state, crate::proofs::StoreLemmas::given))]
    pub fn expression(&self, op: Expression, left: &Value, right: &Value) -> Result<Value, Fault>
        requires left { IsWithin (reach left.now) (counts self.now) }
        requires right { IsWithin (reach right.now) (counts self.now) }
        ensures exact { Gives result self.now
            (operators.expression op left.now right.now self.now) }
        ensures within { IfOk result (λ v. IsWithin (reach v) (counts self.now)) }
    {
        self.store().expression(op, left, right)
    }

    /// A form in which each unknown that equations have solved for is replaced by what it equals.
    #[tactic(auto, using(crate::proofs::StoreLemmas::given))]
    pub(crate) fn up_to_date(&self, form: &Form) -> Result<Form, Fault>
        requires { reach_of_form form.now ≤ unknown_count self.now }
        ensures exact { Gives result self.now (operators.up_to_date form.now self.now) }
        ensures within { IfOk result (λ p. reach_of_form p ≤ unknown_count self.now) }
    {
        self.store().up_to_date(form)
    }

    /// The truth that a value is, for that word: `WrongType`, `NotKnown`.
    #[tactic(auto, unfolding(crate::specs::Operators::truth), using(crate::proofs::StoreLemmas::in_store, crate::proofs::StoreLemmas::given))]
    pub fn truth(&self, op: &[u8], value: &Value) -> Result<bool, Fault>
        requires { IsWithin (reach value.now) (counts self.now) }
        ensures { Gives result self.now (operators.truth op.now value.now self.now) }
    {
        self.store().truth(op, value)
    }

    /// What a word stands for that is a primary by itself.
    #[tactic(auto, unfolding(crate::specs::Operators::nullary))]
    pub fn nullary(&self, word: Nullary) -> Result<Value, Fault>
        ensures exact { Gives result self.now (operators.nullary word self.now) }
        ensures within { IfOk result (λ v. IsWithin (reach v) (counts self.now)) }
    {
        match word {
            Nullary::True => Ok(Value::Boolean(true)),
            Nullary::False => Ok(Value::Boolean(false)),
            Nullary::Jobname => Ok(Value::Text(self.job.share()?)),
        }
    }
}
