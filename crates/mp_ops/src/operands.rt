//! How operators take their operands: types first, then what is brought up to date, the left operand before the right,
//! and then what must be known.

ghost use Rattle.std.specs.Prelude.{◌≡◌, ◌≤◌, length, IfOk};
ghost use Rattle.mp_values.specs.Outcome.{Gives, lift};
ghost use Rattle.mp_values.specs.Refusals.{not_known};
ghost use Rattle.mp_ops.specs.Store.{IsIn, reach_of_form};
ghost use Rattle.mp_ops.specs.Operands as operands;

use crate::Store;
use mp_forms::Form;
use mp_scaled::SharedSlice;
use mp_values::{Fault, Kind, Value};

impl<'a> Store<'a> {
    /// A form in which each unknown that equations have solved for is replaced by what it equals: `CoefficientTooLarge`,
    /// `Overflow`.
    pub fn up_to_date(&self, form: &Form) -> Result<Form, Fault>
        requires { reach_of_form form.now ≤ length self.now.unknowns }
        ensures exact { Gives result self.now (operands.up_to_date form.now self.now) }
        ensures within { IfOk result (λ p. reach_of_form p ≤ length self.now.unknowns) }
    {
        Ok(self.system.reduce(self.alloc, form)??)
    }

    /// The same of a form that is given up for it: one that is up to date already is not copied.
    fn owned_up_to_date(&self, form: Form) -> Result<Form, Fault>
        requires { reach_of_form form ≤ length self.now.unknowns }
        ensures exact { Gives result self.now (operands.up_to_date form self.now) }
        ensures within { IfOk result (λ p. reach_of_form p ≤ length self.now.unknowns) }
    {
        Ok(self.system.reduce_owned(self.alloc, form)??)
    }

    /// The form of a number, brought up to date: `WrongType`, `CoefficientTooLarge`, `Overflow`.
    #[tactic(auto, unfolding(crate::specs::Operands::operand))]
    pub fn operand(&self, op: &[u8], value: &Value) -> Result<Form, Fault>
        requires { IsIn value.now self.now }
        ensures exact { Gives result self.now (operands.operand op.now value.now self.now) }
        ensures within { IfOk result (λ p. reach_of_form p ≤ length self.now.unknowns) }
    {
        match self.settled(value) {
            Value::Numeric(form) => self.up_to_date(form),
            _ => Err(Fault::wrong_type(self.alloc, op)),
        }
    }

    /// The forms of two numbers, brought up to date.
    pub(crate) fn forms(
        &self,
        op: &[u8],
        left: &Value,
        right: &Value,
    ) -> Result<(Form, Form), Fault>
        requires left { IsIn left.now self.now }
        requires right { IsIn right.now self.now }
        ensures exact { Gives result self.now
            (operands.both operands.form operands.form op.now left.now right.now self.now) }
        ensures within_left { IfOk result (λ both. reach_of_form both.0 ≤ length self.now.unknowns) }
        ensures within_right { IfOk result (λ both. reach_of_form both.1 ≤ length self.now.unknowns) }
    {
        match (self.settled(left), self.settled(right)) {
            (Value::Numeric(left), Value::Numeric(right)) => {
                let p = self.up_to_date(left)?;
                let q = self.up_to_date(right)?;
                Ok((p, q))
            }
            _ => Err(Fault::wrong_type(self.alloc, op)),
        }
    }

    /// The same of two numbers of which the first is given up for it.
    pub(crate) fn owned_forms(
        &self,
        op: &[u8],
        left: Value,
        right: &Value,
    ) -> Result<(Form, Form), Fault>
        requires left { IsIn left self.now }
        requires right { IsIn right.now self.now }
        ensures exact { Gives result self.now
            (operands.both operands.form operands.form op.now left right.now self.now) }
        ensures within_left { IfOk result (λ both. reach_of_form both.0 ≤ length self.now.unknowns) }
        ensures within_right { IfOk result (λ both. reach_of_form both.1 ≤ length self.now.unknowns) }
    {
        match (left, self.settled(right)) {
            (Value::Numeric(left), Value::Numeric(right)) => {
                let p = self.owned_up_to_date(left)?;
                let q = self.up_to_date(right)?;
                Ok((p, q))
            }
            (left, _) => self.forms(op, &left, right),
        }
    }

    /// The form of a number, and a known number, in units of 2^-16.
    pub(crate) fn form_and_number(
        &self,
        op: &[u8],
        left: &Value,
        right: &Value,
    ) -> Result<(Form, i32), Fault>
        requires left { IsIn left.now self.now }
        requires right { IsIn right.now self.now }
        ensures exact { Gives result self.now
            (operands.both operands.form operands.number op.now left.now right.now self.now) }
        ensures within { IfOk result (λ both. reach_of_form both.0 ≤ length self.now.unknowns) }
    {
        match (self.settled(left), self.settled(right)) {
            (Value::Numeric(left), Value::Numeric(right)) => {
                let p = self.up_to_date(left)?;
                let q = self.up_to_date(right)?;
                let number = self.known(op, &q)?;
                Ok((p, number))
            }
            _ => Err(Fault::wrong_type(self.alloc, op)),
        }
    }

    /// A number without unknowns, in units of 2^-16: `NotKnown`.
    pub fn known(&self, op: &[u8], form: &Form) -> Result<i32, Fault>
        ensures { Gives result self.now (operands.known op.now form.now self.now) }
    {
        if form.terms().is_empty() {
            Ok(form.constant())
        } else {
            Err(Fault::not_known(self.alloc, op))
        }
    }

    /// A value, whatever it is, brought up to date: `CoefficientTooLarge`, `Overflow`.
    pub(crate) fn brought(&self, value: &Value) -> Result<Value, Fault>
        requires { IsIn value.now self.now }
        ensures { Gives result self.now (operands.brought value.now self.now) }
    {
        match self.settled(value) {
            Value::Numeric(form) => Ok(Value::Numeric(self.up_to_date(form)?)),
            other => Ok(other.copy(self.alloc)?),
        }
    }

    /// What there is, where it is known.
    fn needed<T: Drop>(&self, op: &[u8], value: Option<T>) -> Result<T, Fault>
        ensures { Gives result self.now (lift (operands.or_else value (not_known op.now)) self.now) }
    {
        match value {
            Some(value) => Ok(value),
            None => Err(Fault::not_known(self.alloc, op)),
        }
    }

    /// The bytes of a string, shared; none where its slot is open.
    fn typed_text(&self, op: &[u8], value: &Value) -> Result<Option<SharedSlice<u8>>, Fault>
        requires { IsIn value.now self.now }
        ensures { Gives result self.now (operands.typed operands.string op.now value.now self.now) }
    {
        match self.settled(value) {
            Value::Text(bytes) => Ok(Some(bytes.share()?)),
            Value::Unset(Kind::Text, _) => Ok(None),
            _ => Err(Fault::wrong_type(self.alloc, op)),
        }
    }

    /// The bytes of a string, shared: `WrongType`, `NotKnown`.
    #[tactic(auto, unfolding(crate::specs::Operands::text))]
    pub fn text(&self, op: &[u8], value: &Value) -> Result<SharedSlice<u8>, Fault>
        requires { IsIn value.now self.now }
        ensures { Gives result self.now (operands.text op.now value.now self.now) }
    {
        let bytes = self.typed_text(op, value)?;
        self.needed(op, bytes)
    }

    /// The bytes of two strings.
    pub(crate) fn texts(
        &self,
        op: &[u8],
        left: &Value,
        right: &Value,
    ) -> Result<(SharedSlice<u8>, SharedSlice<u8>), Fault>
        requires left { IsIn left.now self.now }
        requires right { IsIn right.now self.now }
        ensures { Gives result self.now
            (operands.both operands.string operands.string op.now left.now right.now self.now) }
    {
        let first = self.typed_text(op, left)?;
        let second = self.typed_text(op, right)?;
        let first = self.needed(op, first)?;
        let second = self.needed(op, second)?;
        Ok((first, second))
    }

    /// A truth; none where its slot is open.
    fn typed_truth(&self, op: &[u8], value: &Value) -> Result<Option<bool>, Fault>
        requires { IsIn value.now self.now }
        ensures { Gives result self.now (operands.typed operands.boolean op.now value.now self.now) }
    {
        match self.settled(value) {
            Value::Boolean(truth) => Ok(Some(*truth)),
            Value::Unset(Kind::Boolean, _) => Ok(None),
            _ => Err(Fault::wrong_type(self.alloc, op)),
        }
    }

    /// A truth: `WrongType`, `NotKnown`.
    #[tactic(auto, unfolding(crate::specs::Operands::truth))]
    pub fn truth(&self, op: &[u8], value: &Value) -> Result<bool, Fault>
        requires { IsIn value.now self.now }
        ensures { Gives result self.now (operands.truth op.now value.now self.now) }
    {
        let truth = self.typed_truth(op, value)?;
        self.needed(op, truth)
    }

    /// Two truths.
    pub(crate) fn truths(
        &self,
        op: &[u8],
        left: &Value,
        right: &Value,
    ) -> Result<(bool, bool), Fault>
        requires left { IsIn left.now self.now }
        requires right { IsIn right.now self.now }
        ensures { Gives result self.now
            (operands.both operands.boolean operands.boolean op.now left.now right.now self.now) }
    {
        let first = self.typed_truth(op, left)?;
        let second = self.typed_truth(op, right)?;
        let first = self.needed(op, first)?;
        let second = self.needed(op, second)?;
        Ok((first, second))
    }
}
