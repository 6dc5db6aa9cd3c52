//! The operators by their words. A word adds a line.

ghost use Rattle.std.specs.Prelude.{◌≡◌, IfOk};
ghost use Rattle.mp_values.specs.Outcome.{Gives};
ghost use Rattle.mp_ops.specs.Store.{IsIn};
ghost use Rattle.mp_ops.specs.Operands as operands;
ghost use Rattle.mp_ops.specs.Joins.{applied, joined};
ghost use Rattle.mp_ops.specs.Operators as operators;

use crate::Store;
use crate::limits::TEXT_LIMIT;
use mp_report::{Cap, SourceError};
use mp_scaled::{Bytes, SharedSlice};
use mp_values::{Expression, Fault, Secondary, Tertiary, Unary, Value, has_kind};

/// Whether no unknown is left in a value that is up to date, and no open slot.
fn is_known(value: &Value) -> bool
    ensures { result ≡ operators.is_known value.now }
{
    match value {
        Value::Numeric(form) => form.terms().is_empty(),
        Value::Unset(_, _) => false,
        _ => true,
    }
}

impl<'a> Store<'a> {
    /// What an operator makes of the primary behind it: `WrongType`, `CoefficientTooLarge`, `Overflow`, `NotKnown`.
    #[tactic(auto, unfolding(crate::specs::Operators::unary))]
    pub fn unary(&self, operator: Unary, value: &Value) -> Result<Value, Fault>
        requires { IsIn value.now self.now }
        ensures exact { Gives result self.now (operators.unary operator value.now self.now) }
        ensures within { IfOk result (λ v. IsIn v self.now) }
    {
        let op = operator.name();
        match operator {
            Unary::Plus => self.positive(op, value),
            Unary::Minus => self.negated(op, value),
            Unary::Not => self.denied(op, value),
            Unary::Known => Ok(Value::Boolean(is_known(&self.brought(value)?))),
            Unary::Unknown => Ok(Value::Boolean(!is_known(&self.brought(value)?))),
            Unary::Is(kind) => Ok(Value::Boolean(has_kind(&self.brought(value)?, kind))),
        }
    }

    /// What an operator makes of the primaries that it joins: `WrongType`, `CoefficientTooLarge`, `Overflow`, `NotKnown`,
    /// `DivisionByZero`.
    #[tactic(auto, unfolding(crate::specs::Operators::secondary))]
    pub fn secondary(
        &self,
        operator: Secondary,
        left: &Value,
        right: &Value,
    ) -> Result<Value, Fault>
        requires left { IsIn left.now self.now }
        requires right { IsIn right.now self.now }
        ensures exact { Gives result self.now (operators.secondary operator left.now right.now self.now) }
        ensures within { IfOk result (λ v. IsIn v self.now) }
    {
        let op = operator.name();
        match operator {
            Secondary::Times => self.product(op, left, right),
            Secondary::Over => self.quotient(op, left, right),
            Secondary::And => {
                let (first, second) = self.truths(op, left, right)?;
                Ok(Value::Boolean(first && second))
            }
        }
    }

    /// What an operator makes of the secondaries that it joins: `WrongType`, `CoefficientTooLarge`, `Overflow`, `NotKnown`.
    /// The first is given up for it: a new unknown is put before the terms of a long sum, and none of them is copied.
    #[tactic(auto, unfolding(crate::specs::Operators::tertiary))]
    pub fn tertiary(&self, operator: Tertiary, left: Value, right: &Value) -> Result<Value, Fault>
        requires left { IsIn left self.now }
        requires right { IsIn right.now self.now }
        ensures exact { Gives result self.now (operators.tertiary operator left right.now self.now) }
        ensures within { IfOk result (λ v. IsIn v self.now) }
    {
        let op = operator.name();
        match operator {
            Tertiary::Plus => self.sum(op, left, right),
            Tertiary::Minus => self.subtracted(op, left, right),
            Tertiary::Or => {
                let (first, second) = self.truths(op, &left, right)?;
                Ok(Value::Boolean(first || second))
            }
        }
    }

    /// What an operator makes of the tertiaries that it joins: `WrongType`, `CoefficientTooLarge`, `Overflow`, `NotKnown`,
    /// `Limit`.
    #[tactic(auto, unfolding(crate::specs::Operators::expression))]
    pub fn expression(
        &self,
        operator: Expression,
        left: &Value,
        right: &Value,
    ) -> Result<Value, Fault>
        requires left { IsIn left.now self.now }
        requires right { IsIn right.now self.now }
        ensures exact { Gives result self.now (operators.expression operator left.now right.now self.now) }
        ensures within { IfOk result (λ v. IsIn v self.now) }
    {
        let op = operator.name();
        match operator {
            Expression::Compare(comparison) => self.compared(op, comparison, left, right),
            Expression::Concatenate => self.concatenation(op, left, right),
        }
    }

    #[tactic(auto, unfolding(crate::specs::Operands::truth))]
    fn denied(&self, op: &[u8], value: &Value) -> Result<Value, Fault>
        requires { IsIn value.now self.now }
        ensures exact { Gives result self.now (applied operands.boolean op.now operators.denied value.now self.now) }
        ensures within { IfOk result (λ v. IsIn v self.now) }
    {
        Ok(Value::Boolean(!self.truth(op, value)?))
    }

    fn concatenation(&self, op: &[u8], left: &Value, right: &Value) -> Result<Value, Fault>
        requires left { IsIn left.now self.now }
        requires right { IsIn right.now self.now }
        ensures exact { Gives result self.now
            (joined operands.string operands.string op.now operators.concatenation left.now right.now self.now) }
        ensures within { IfOk result (λ v. IsIn v self.now) }
    {
        let (first, second) = self.texts(op, left, right)?;
        let count = first.as_slice().len() + second.as_slice().len();
        if count > TEXT_LIMIT as usize {
            return Err(Fault::Refused(SourceError::Limit(Cap::Text, TEXT_LIMIT)));
        }
        let mut bytes = Bytes::copy_of(self.alloc, first.as_slice())?;
        bytes.append(second.as_slice())?;
        Ok(Value::Text(SharedSlice::from_vec(bytes.into_vec())?))
    }
}
