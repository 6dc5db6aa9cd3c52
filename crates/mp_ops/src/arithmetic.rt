//! Sums, products and quotients of numbers.

ghost use Rattle.std.specs.Prelude.{◌≡◌, ◌≤◌, ◌<◌, ◌^◌, length, unsigned_abs, IfOk};
ghost use Rattle.mp_forms.specs.Forms.{form_times_scaled, form_over_scaled};
ghost use Rattle.mp_values.specs.Outcome.{Gives, lift};
ghost use Rattle.mp_ops.specs.Store.{IsIn, reach_of_form};
ghost use Rattle.mp_ops.specs.Operands as operands;
ghost use Rattle.mp_ops.specs.Joins.{applied, joined};
ghost use Rattle.mp_ops.specs.Operators.{same_number};
ghost use Rattle.mp_ops.specs.Arithmetic as arithmetic;

use crate::Store;
use mp_forms::Form;
use mp_values::{Fault, Value};

/// 1 as a coefficient.
pub(crate) const ONE: i64 = 1 << 28;

impl<'a> Store<'a> {
    #[tactic(auto, unfolding(crate::specs::Operands::operand))]
    pub(crate) fn positive(&self, op: &[u8], value: &Value) -> Result<Value, Fault>
        requires { IsIn value.now self.now }
        ensures exact { Gives result self.now (applied operands.form op.now same_number value.now self.now) }
        ensures within { IfOk result (λ v. IsIn v self.now) }
    {
        Ok(Value::Numeric(self.operand(op, value)?))
    }

    #[tactic(auto, unfolding(crate::specs::Operands::operand))]
    pub(crate) fn negated(&self, op: &[u8], value: &Value) -> Result<Value, Fault>
        requires { IsIn value.now self.now }
        ensures exact { Gives result self.now (applied operands.form op.now arithmetic.negated value.now self.now) }
        ensures within { IfOk result (λ v. IsIn v self.now) }
    {
        let p = self.operand(op, value)?;
        Ok(Value::Numeric(self.times(&p, -65536)?))
    }

    pub(crate) fn sum(&self, op: &[u8], left: Value, right: &Value) -> Result<Value, Fault>
        requires left { IsIn left self.now }
        requires right { IsIn right.now self.now }
        ensures exact { Gives result self.now
            (joined operands.form operands.form op.now arithmetic.sum left right.now self.now) }
        ensures within { IfOk result (λ v. IsIn v self.now) }
    {
        let (p, q) = self.owned_forms(op, left, right)?;
        match self.combined(ONE, p, &q) {
            Ok(sum) => Ok(Value::Numeric(sum)),
            Err(fault) => Err(fault),
        }
    }

    pub(crate) fn subtracted(&self, op: &[u8], left: Value, right: &Value) -> Result<Value, Fault>
        requires left { IsIn left self.now }
        requires right { IsIn right.now self.now }
        ensures exact { Gives result self.now
            (joined operands.form operands.form op.now arithmetic.difference left right.now self.now) }
        ensures within { IfOk result (λ v. IsIn v self.now) }
    {
        let (p, q) = self.owned_forms(op, left, right)?;
        match self.combined(-ONE, p, &q) {
            Ok(difference) => Ok(Value::Numeric(difference)),
            Err(fault) => Err(fault),
        }
    }

    /// The difference of two numbers as a form, for that operator: `WrongType`, `CoefficientTooLarge`, `Overflow`.
    #[tactic(auto, unfolding(crate::specs::Arithmetic::difference_by))]
    pub fn difference(&self, op: &[u8], left: &Value, right: &Value) -> Result<Form, Fault>
        requires left { IsIn left.now self.now }
        requires right { IsIn right.now self.now }
        ensures exact { Gives result self.now (arithmetic.difference_by op.now left.now right.now self.now) }
        ensures within { IfOk result (λ p. reach_of_form p ≤ length self.now.unknowns) }
    {
        let (p, q) = self.forms(op, left, right)?;
        self.combined(-ONE, p, &q)
    }

    /// The first number and `f` times the second, in units of 2^-28; the first is given up for it.
    fn combined(&self, f: i64, p: Form, q: &Form) -> Result<Form, Fault>
        requires factor { unsigned_abs f < 2 ^ 44 }
        requires left { reach_of_form p ≤ length self.now.unknowns }
        requires right { reach_of_form q.now ≤ length self.now.unknowns }
        ensures exact { Gives result self.now (lift (arithmetic.combined f p q.now) self.now) }
        ensures within { IfOk result (λ p. reach_of_form p ≤ length self.now.unknowns) }
    {
        Ok(p.into_sum(f, q)??)
    }

    pub(crate) fn product(&self, op: &[u8], left: &Value, right: &Value) -> Result<Value, Fault>
        requires left { IsIn left.now self.now }
        requires right { IsIn right.now self.now }
        ensures exact { Gives result self.now
            (joined operands.form operands.form op.now arithmetic.product left.now right.now self.now) }
        ensures within { IfOk result (λ v. IsIn v self.now) }
    {
        let (p, q) = self.forms(op, left, right)?;
        Ok(Value::Numeric(self.product_by(&p, &q)?))
    }

    /// The product of two numbers, one of which must be known.
    fn product_by(&self, p: &Form, q: &Form) -> Result<Form, Fault>
        requires left { reach_of_form p.now ≤ length self.now.unknowns }
        requires right { reach_of_form q.now ≤ length self.now.unknowns }
        ensures exact { Gives result self.now
            (lift (arithmetic.product_by p.now q.now p.now.terms q.now.terms) self.now) }
        ensures within { IfOk result (λ form. reach_of_form form ≤ length self.now.unknowns) }
    {
        if q.terms().is_empty() {
            self.times(p, q.constant())
        } else if p.terms().is_empty() {
            self.times(q, p.constant())
        } else {
            Err(Fault::not_known(self.alloc, b"*"))
        }
    }

    /// A form multiplied by a known number, in units of 2^-16.
    fn times(&self, form: &Form, factor: i32) -> Result<Form, Fault>
        requires { reach_of_form form.now ≤ length self.now.unknowns }
        ensures exact { Gives result self.now
            (lift (operands.or_refused (form_times_scaled factor form.now)) self.now) }
        ensures within { IfOk result (λ p. reach_of_form p ≤ length self.now.unknowns) }
    {
        Ok(form.scale_by(self.alloc, factor)??)
    }

    pub(crate) fn quotient(&self, op: &[u8], left: &Value, right: &Value) -> Result<Value, Fault>
        requires left { IsIn left.now self.now }
        requires right { IsIn right.now self.now }
        ensures exact { Gives result self.now
            (joined operands.form operands.number op.now arithmetic.quotient left.now right.now self.now) }
        ensures within { IfOk result (λ v. IsIn v self.now) }
    {
        let (p, divisor) = self.form_and_number(op, left, right)?;
        match self.divided(&p, divisor) {
            Ok(quotient) => Ok(Value::Numeric(quotient)),
            Err(fault) => Err(fault),
        }
    }

    /// A form divided by a known number, in units of 2^-16.
    fn divided(&self, form: &Form, divisor: i32) -> Result<Form, Fault>
        requires { reach_of_form form.now ≤ length self.now.unknowns }
        ensures exact { Gives result self.now
            (lift (operands.or_refused (form_over_scaled divisor form.now)) self.now) }
        ensures within { IfOk result (λ p. reach_of_form p ≤ length self.now.unknowns) }
    {
        Ok(form.divide_by(self.alloc, divisor)??)
    }
}
