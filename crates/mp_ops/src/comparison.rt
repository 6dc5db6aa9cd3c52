//! Comparisons: numbers by the sign of their difference, strings by their bytes, and false before true.

ghost use Rattle.std.specs.Prelude.{◌≡◌, pos, IfOk};
ghost use Rattle.mp_values.specs.Outcome.{Gives, lift};
ghost use Rattle.mp_ops.specs.Store.{IsIn};
ghost use Rattle.mp_ops.specs.Operands as operands;
ghost use Rattle.mp_ops.specs.Joins.{joined};
ghost use Rattle.mp_ops.specs.Operators.{has_no_terms};
ghost use Rattle.mp_ops.specs.Comparison as comparisons;

use crate::Store;
use crate::arithmetic::ONE;
use mp_forms::Form;
use mp_report::SourceError;
use mp_scaled::NoMemory;
use mp_values::{Comparison, Fault, Kind, Value};
use std::alloc::Global;
use std::cmp::Ordering;

/// A known difference decides where its magnitude, in units of 2^-16, is smaller.
const DIFFERENCE_LIMIT: u64 = 1 << 31;

/// What a comparison says of an order.
fn holds(comparison: Comparison, order: Ordering) -> bool
    ensures { result ≡ comparisons.holds comparison order }
{
    match comparison {
        Comparison::Less => order.is_lt(),
        Comparison::AtMost => order.is_le(),
        Comparison::Greater => order.is_gt(),
        Comparison::AtLeast => order.is_ge(),
        Comparison::Equal => order.is_eq(),
        Comparison::Unequal => order.is_ne(),
    }
}

/// The terms of a form alone.
fn terms_of(alloc: Global, form: &Form) -> Result<Form, NoMemory>
    ensures { IfOk result (λ terms. terms ≡ record form.now { constant = pos 0 }) }
{
    Ok(Form::of_terms(0, Vec::from_slice(alloc, form.terms())?))
}

/// Whether the difference of two numbers has no unknowns. Without any in both it takes no memory.
fn differ_by_a_number(alloc: Global, p: &Form, q: &Form) -> Result<bool, NoMemory>
    ensures { IfOk result (λ b. b ≡ has_no_terms (comparisons.terms_between p.now q.now)) }
{
    if p.terms().is_empty() && q.terms().is_empty() {
        return Ok(true);
    }
    let left = terms_of(alloc, p)?;
    let right = terms_of(alloc, q)?;
    match left.into_sum(-ONE, &right)? {
        Ok(difference) => Ok(difference.terms().is_empty()),
        Err(_) => Ok(false),
    }
}

impl<'a> Store<'a> {
    /// What a comparison says of a known difference, in units of 2^-16.
    fn by_difference(&self, comparison: Comparison, difference: i64) -> Result<Value, Fault>
        ensures { Gives result self.now (lift (comparisons.by_difference comparison difference) self.now) }
    {
        if difference.unsigned_abs() >= DIFFERENCE_LIMIT {
            return Err(Fault::Refused(SourceError::Overflow));
        }
        Ok(Value::Boolean(holds(comparison, difference.cmp(&0))))
    }

    fn compare_numbers(
        &self,
        op: &[u8],
        comparison: Comparison,
        left: &Value,
        right: &Value,
    ) -> Result<Value, Fault>
        requires left { IsIn left.now self.now }
        requires right { IsIn right.now self.now }
        ensures { Gives result self.now
            (joined operands.form operands.form op.now (comparisons.compare_numbers op.now comparison) left.now right.now self.now) }
    {
        let (p, q) = self.forms(op, left, right)?;
        if !differ_by_a_number(self.alloc, &p, &q)? {
            return Err(Fault::not_known(self.alloc, op));
        }
        self.by_difference(
            comparison,
            i64::from(p.constant()) - i64::from(q.constant()),
        )
    }

    fn compare_strings(
        &self,
        op: &[u8],
        comparison: Comparison,
        left: &Value,
        right: &Value,
    ) -> Result<Value, Fault>
        requires left { IsIn left.now self.now }
        requires right { IsIn right.now self.now }
        ensures { Gives result self.now
            (joined operands.string operands.string op.now (comparisons.compare_strings comparison) left.now right.now self.now) }
    {
        let (first, second) = self.texts(op, left, right)?;
        let order = first.as_slice().cmp(second.as_slice());
        Ok(Value::Boolean(holds(comparison, order)))
    }

    fn compare_truths(
        &self,
        op: &[u8],
        comparison: Comparison,
        left: &Value,
        right: &Value,
    ) -> Result<Value, Fault>
        requires left { IsIn left.now self.now }
        requires right { IsIn right.now self.now }
        ensures { Gives result self.now
            (joined operands.boolean operands.boolean op.now (comparisons.compare_truths comparison) left.now right.now self.now) }
    {
        let (first, second) = self.truths(op, left, right)?;
        Ok(Value::Boolean(holds(comparison, first.cmp(&second))))
    }

    /// Compares two values of the type of the left one: `WrongType`, `NotKnown`, `Overflow`.
    pub(crate) fn compared(
        &self,
        op: &[u8],
        comparison: Comparison,
        left: &Value,
        right: &Value,
    ) -> Result<Value, Fault>
        requires left { IsIn left.now self.now }
        requires right { IsIn right.now self.now }
        ensures { Gives result self.now (comparisons.compared op.now comparison left.now right.now self.now) }
    {
        match left {
            Value::Numeric(_) | Value::Unset(Kind::Numeric, _) => {
                self.compare_numbers(op, comparison, left, right)
            }
            Value::Text(_) | Value::Unset(Kind::Text, _) => {
                self.compare_strings(op, comparison, left, right)
            }
            Value::Boolean(_) | Value::Unset(Kind::Boolean, _) => {
                self.compare_truths(op, comparison, left, right)
            }
            Value::Vacuous => Err(Fault::wrong_type(self.alloc, op)),
        }
    }
}
