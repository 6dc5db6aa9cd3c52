//! Secondaries, tertiaries and expressions.

ghost use Rattle.std.specs.Prelude.{◌≡◌, ◌≤◌};
ghost use Rattle.mp_acts.specs.Counts.{IsWithin};
ghost use Rattle.mp_acts.specs.Reach.{reach, reach_of_macro};
ghost use Rattle.mp_rules.specs.Machine.{things};
ghost use Rattle.mp_rules.specs.Rules as rules;
ghost use Rattle.mp_rules.specs.Rules.{SecondaryRest, Secondary, TertiaryRest, Tertiary, ExpressionRest, ExpressionFrom, Expression};
ghost use Rattle.mp_rules.specs.Promises.{Means, Acts, UsesValue};
ghost use Rattle.mp_rules.specs.Meaning.{the};

use crate::evaluator::Evaluator;
use mp_expand::Equals;
use mp_scaled::Shared;
use mp_values::{Level, Macro, Stop, Value};

impl Evaluator {
    /// The macro of an operator joins two values: its body comes to stand in front of what is behind the right one.
    #[cycle(eval)]
    fn joined(&mut self, called: Shared<Macro>, left: Value, right: Value) -> Result<(), Stop>
        requires body { IsWithin (reach_of_macro called) (things self.old) }
        requires left { IsWithin (reach left) (things self.old) }
        requires right { IsWithin (reach right) (things self.old) }
        ensures { Acts (rules.joined the called left right) result self.old self.new }
    {
        self.put_hand_back()?;
        let arguments = self.joined_with(left, right)?;
        self.call_on(called, arguments)
    }

    /// More primaries, joined by operators, from the left.
    #[cycle(eval)]
    #[tactic(auto, using(crate::proofs::Cases::secondary_rest_is))]
    fn secondary_rest(&mut self, left: Value) -> Result<Value, Stop>
        requires { IsWithin (reach left) (things self.old) }
        ensures { Means (SecondaryRest left) result self.old self.new }
    {
        let mut so_far = left;
        'primaries: loop {
            so_far = if let Some(operator) = self.sign().secondary() {
                let right = self.next_primary()?;
                self.secondary_of(operator, so_far, right)?
            } else if let Some(called) = self.operator(Level::Primary)? {
                let right = self.next_primary()?;
                self.joined(called, so_far, right)?;
                self.primary()?
            } else {
                return Ok(so_far);
            };
        }
    }

    /// Primaries joined by operators.
    #[cycle(eval)]
    #[tactic(auto, using(crate::proofs::Cases::secondary_is))]
    pub(crate) fn secondary(&mut self) -> Result<Value, Stop>
        ensures { Means Secondary result self.old self.new }
    {
        let value = self.primary()?;
        self.secondary_rest(value)
    }

    /// The front that is got next, and the secondary that it begins.
    #[cycle(eval)]
    fn next_secondary(&mut self) -> Result<Value, Stop>
        ensures { UsesValue (rules.next_secondary the) result self.old self.new }
    {
        self.next_front()?;
        self.secondary()
    }

    /// More secondaries, joined by operators, from the left.
    #[cycle(eval)]
    #[tactic(auto, using(crate::proofs::Cases::tertiary_rest_is))]
    fn tertiary_rest(&mut self, left: Value) -> Result<Value, Stop>
        requires { IsWithin (reach left) (things self.old) }
        ensures { Means (TertiaryRest left) result self.old self.new }
    {
        let mut so_far = left;
        'secondaries: loop {
            so_far = if let Some(operator) = self.sign().tertiary() {
                let right = self.next_secondary()?;
                self.tertiary_of(operator, so_far, right)?
            } else if let Some(called) = self.operator(Level::Secondary)? {
                let right = self.next_secondary()?;
                self.joined(called, so_far, right)?;
                self.secondary()?
            } else {
                return Ok(so_far);
            };
        }
    }

    /// Secondaries joined by operators.
    #[cycle(eval)]
    #[tactic(auto, using(crate::proofs::Cases::tertiary_is))]
    pub(crate) fn tertiary(&mut self) -> Result<Value, Stop>
        ensures { Means Tertiary result self.old self.new }
    {
        let value = self.secondary()?;
        self.tertiary_rest(value)
    }

    /// The front that is got next, and the tertiary that it begins.
    #[cycle(eval)]
    fn next_tertiary(&mut self) -> Result<Value, Stop>
        ensures { UsesValue (rules.next_tertiary the) result self.old self.new }
    {
        self.next_front()?;
        self.tertiary()
    }

    /// More tertiaries, joined by operators, from the left. `equals` says whether `=` is one.
    #[cycle(eval)]
    #[tactic(auto, using(crate::proofs::Cases::expression_rest_is))]
    fn expression_rest(&mut self, left: Value, equals: Equals) -> Result<Value, Stop>
        requires { IsWithin (reach left) (things self.old) }
        ensures { Means (ExpressionRest left equals) result self.old self.new }
    {
        let mut so_far = left;
        'tertiaries: loop {
            so_far = if let Some(operator) = self.sign().joining(equals) {
                let right = self.next_tertiary()?;
                self.expression_of(operator, so_far, right)?
            } else if let Some(called) = self.operator(Level::Tertiary)? {
                let right = self.next_tertiary()?;
                self.joined(called, so_far, right)?;
                self.tertiary()?
            } else {
                return Ok(so_far);
            };
        }
    }

    /// The rest of an expression that begins with a primary. `equals` says whether `=` is one of its operators.
    #[cycle(eval)]
    #[tactic(auto, using(crate::proofs::Cases::expression_from_is))]
    pub(crate) fn expression_from(&mut self, first: Value, equals: Equals) -> Result<Value, Stop>
        requires { IsWithin (reach first) (things self.old) }
        ensures { Means (ExpressionFrom first equals) result self.old self.new }
    {
        let second = self.secondary_rest(first)?;
        let third = self.tertiary_rest(second)?;
        self.expression_rest(third, equals)
    }

    /// An expression, in which `=` compares.
    #[cycle(eval)]
    #[tactic(auto, using(crate::proofs::Cases::expression_is))]
    pub(crate) fn expression(&mut self) -> Result<Value, Stop>
        ensures { Means Expression result self.old self.new }
    {
        let first = self.primary()?;
        self.expression_from(first, Equals::Compares)
    }
}
