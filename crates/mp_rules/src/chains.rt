//! Chains of equations and assignments.

ghost use Rattle.std.specs.Prelude.{◌≡◌, ◌≤◌, ◌++◌, ◌∷◌, [], reverse, OnOk};
ghost use Rattle.mp_acts.specs.Counts.{IsWithin};
ghost use Rattle.mp_acts.specs.Reach.{reach};
ghost use Rattle.mp_rules.specs.Machine.{things};
ghost use Rattle.mp_rules.specs.Rules.{Chain, ChainSide as ASide};
ghost use Rattle.mp_rules.specs.Promises.{Means, ActsValue, GoesOn, Acts, used_by_side};
ghost use Rattle.mp_rules.specs.Meaning.{the};
ghost use Rattle.mp_rules.specs.Rules as rules;
ghost use Rattle.mp_rules.specs.Chains.{settle, reach_of_side, reach_of_sides};
ghost use Rattle.mp_rules.specs.Steps.{acting};

use crate::chain_side::ChainSide;
use crate::evaluator::Evaluator;
use mp_expand::{Equals, Front};
use mp_scaled::NoMemory;
use mp_values::{Stop, Value, Word};

fn push_side(sides: &mut Vec<ChainSide>, side: ChainSide) -> Result<(), NoMemory>
    ensures { OnOk result (sides.new.items ≡ sides.old.items ++ side ∷ []) }
{
    sides.push(side)?;
    Ok(())
}

impl Evaluator {
    /// A side that begins with that primary, or is that target.
    #[cycle(eval)]
    fn side_from(&mut self, begun: ChainSide) -> Result<ChainSide, Stop>
        requires { IsWithin (reach_of_side begun) (things self.old) }
        ensures { GoesOn (rules.side_from the begun) (used_by_side begun) result self.old self.new }
    {
        match begun {
            ChainSide::Target(target) => Ok(ChainSide::Target(target)),
            ChainSide::Value(value) => {
                let value = self.expression_from(value, Equals::Ends)?;
                Ok(ChainSide::Value(value))
            }
        }
    }

    /// A side of a chain: a target, or an expression, which `=` ends.
    #[cycle(eval)]
    #[tactic(auto, using(crate::proofs::Cases::chain_side_is))]
    fn chain_side(&mut self) -> Result<ChainSide, Stop>
        ensures { Means ASide result self.old self.new }
    {
        let begun = self.leading()?;
        self.side_from(begun)
    }

    /// Gives the sides a value, the last one first.
    #[tactic(auto, using(crate::proofs::ChainLemmas::settle_last, crate::proofs::ChainLemmas::settle_none, crate::proofs::ChainLemmas::reach_last))]
    fn settle(&mut self, sides: Vec<ChainSide>, value: &Value) -> Result<(), Stop>
        requires sides { IsWithin (reach_of_sides (reverse sides.items)) (things self.old) }
        requires value { IsWithin (reach value.now) (things self.old) }
        ensures { Acts (acting (settle (reverse sides.items) value.now)) result self.old self.new }
    {
        let mut left = sides;
        'sides: while let Some(side) = left.pop() {
            self.settle_side(&side, value)?;
        }
        Ok(())
    }

    /// The end of a chain: a lone expression is its value, else all sides get the last one.
    fn chain_end(&mut self, before: Vec<ChainSide>, value: Value) -> Result<Value, Stop>
        requires sides { IsWithin (reach_of_sides (reverse before.items)) (things self.old) }
        requires value { IsWithin (reach value) (things self.old) }
        ensures { ActsValue (rules.chain_end (reverse before.items) value) result self.old self.new }
    {
        let lone = before.is_empty();
        self.settle(before, &value)?;
        if lone { Ok(value) } else { Ok(Value::Vacuous) }
    }

    /// A chain of equations and assignments, or an expression alone.
    #[cycle(eval)]
    #[tactic(auto, using(crate::proofs::Cases::chain_is, crate::proofs::Cases::chain_rest_is, crate::proofs::ChainLemmas::reverse_push, crate::proofs::ChainLemmas::reach_last, crate::proofs::ChainLemmas::reach_none))]
    pub(crate) fn chain(&mut self) -> Result<Value, Stop>
        ensures { Means Chain result self.old self.new }
    {
        let mut before = Vec::new(self.alloc);
        let mut last = self.chain_side()?;
        'sides: loop {
            let side = match last {
                ChainSide::Target(target) => ChainSide::Target(target),
                ChainSide::Value(value) => {
                    match self.sign() {
                        Front::Word(_, Word::Equals) => {}
                        _ => return self.chain_end(before, value),
                    }
                    ChainSide::Value(value)
                }
            };
            push_side(&mut before, side)?;
            self.next_front()?;
            last = self.chain_side()?;
        }
    }
}
