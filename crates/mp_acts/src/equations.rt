//! Equations between two values.

ghost use Rattle.std.specs.Prelude.{◌≡◌, ◌≢◌, ◌≤◌, ◌<◌, length, Ok, Err, IfOk, IfErr};
ghost use Rattle.mp_values.specs.Outcome.{Gives, IsWhole, change, error_of, then};
ghost use Rattle.mp_values.specs.declared.fault.Fault.TheVariants.{NoMemory as WantOfMemory};
ghost use Rattle.mp_values.specs.Kinds.{are_of_one_kind};
ghost use Rattle.mp_ops.specs.Store.{reach_of_form};
ghost use Rattle.mp_acts.specs.Counts.{IsWithin, nothing};
ghost use Rattle.mp_acts.specs.State.{unknown_count, counts};
ghost use Rattle.mp_acts.specs.Reach.{reach};
ghost use Rattle.mp_acts.specs.Operators.{up_to_date};
ghost use Rattle.mp_acts.specs.Equations.{IsAnswer};
ghost use Rattle.mp_acts.specs.Equations as equations;

use crate::State;
use crate::event::Event;
use crate::texts::push_scaled;
use mp_forms::Form;
use mp_report::{Cap, SourceError};
use mp_scaled::Bytes;
use mp_solver::{Equated, TERM_LIMIT};
use mp_values::{Fault, Value, have_one_kind};
use std::snapshot::Snapshot;

impl State {
    /// Makes two values of one type equal; `WrongType` where they are not of one.
    ///
    /// Of a value without one of its own and a known one, the slot of the former is filled. Two such are `NotKnown`. Two
    /// known strings or booleans that are equal are noted as redundant, with the difference 0, and others are
    /// `Inconsistent`. Numbers are made equal by the solver.
    #[tactic(auto, unfolding(crate::specs::Equations::equation))]
    pub fn do_equation(&mut self, left: &Value, right: &Value) -> Result<(), Fault>
        requires left { IsWithin (reach left.now) (counts self.old) }
        requires right { IsWithin (reach right.now) (counts self.old) }
        ensures exact { Gives result self.new (equations.equation left.now right.now self.old) }
        ensures whole { IsWhole result self.old self.new }
        ensures counts { IsWithin (counts self.old) (counts self.new) }
    {
        match (left, right) {
            (Value::Numeric(_), Value::Numeric(_)) => self.equate_numbers(left, right),
            _ => {
                let left = self.store().settled(left).copy(self.alloc)?;
                let right = self.store().settled(right).copy(self.alloc)?;
                self.equate_settled(&left, &right)
            }
        }
    }

    /// Makes two values equal that are no filled slots.
    fn equate_settled(&mut self, left: &Value, right: &Value) -> Result<(), Fault>
        requires left { IsWithin (reach left.now) (counts self.old) }
        requires right { IsWithin (reach right.now) (counts self.old) }
        ensures exact { Gives result self.new
            (equations.equate_as (are_of_one_kind left.now right.now) left.now right.now self.old) }
        ensures whole { IsWhole result self.old self.new }
        ensures counts { IsWithin (counts self.old) (counts self.new) }
    {
        if have_one_kind(left, right) {
            self.equate(left, right)
        } else {
            Err(Fault::wrong_type(self.alloc, b"="))
        }
    }

    /// Makes two values of one type equal that are no filled slots.
    fn equate(&mut self, left: &Value, right: &Value) -> Result<(), Fault>
        requires left { IsWithin (reach left.now) (counts self.old) }
        requires right { IsWithin (reach right.now) (counts self.old) }
        ensures exact { Gives result self.new (equations.equate left.now right.now self.old) }
        ensures whole { IsWhole result self.old self.new }
        ensures counts { IsWithin (counts self.old) (counts self.new) }
    {
        match (left, right) {
            (Value::Unset(..), Value::Unset(..)) => Err(Fault::not_known(self.alloc, b"=")),
            (Value::Unset(_, slot), value) => self.fill(*slot, value),
            (value, Value::Unset(_, slot)) => self.fill(*slot, value),
            _ => self.equate_known(left, right),
        }
    }

    /// Makes two values equal that have no slots.
    fn equate_known(&mut self, left: &Value, right: &Value) -> Result<(), Fault>
        requires left { IsWithin (reach left.now) (counts self.old) }
        requires right { IsWithin (reach right.now) (counts self.old) }
        ensures exact { Gives result self.new (equations.equate_known left.now right.now self.old) }
        ensures whole { IsWhole result self.old self.new }
        ensures counts { IsWithin (counts self.old) (counts self.new) }
    {
        match (left, right) {
            (Value::Numeric(_), _) => self.equate_numbers(left, right),
            (Value::Text(a), Value::Text(b)) => self.agree(a.as_slice() == b.as_slice()),
            (Value::Boolean(a), Value::Boolean(b)) => self.agree(a == b),
            (Value::Unset(..), _) => Err(Fault::not_known(self.alloc, b"=")),
            (Value::Text(_) | Value::Boolean(_) | Value::Vacuous, _) => {
                Err(Fault::wrong_type(self.alloc, b"="))
            }
        }
    }

    /// Fills a slot with a value.
    fn fill(&mut self, slot: u32, value: &Value) -> Result<(), Fault>
        requires slot { slot < length self.old.slots }
        requires value { IsWithin (reach value.now) (counts self.old) }
        ensures exact { Gives result self.new (change (equations.fill slot value.now) self.old) }
        ensures whole { IsWhole result self.old self.new }
        ensures counts { IsWithin (counts self.old) (counts self.new) }
    {
        let value = value.copy(self.alloc)?;
        self.slots[slot as usize] = Some(value);
        Ok(())
    }

    /// What an equation of two known values comes to that are no numbers.
    fn agree(&mut self, equal: bool) -> Result<(), Fault>
        ensures exact { Gives result self.new (equations.agree equal self.old) }
        ensures whole { IsWhole result self.old self.new }
        ensures counts { IsWithin (counts self.old) (counts self.new) }
    {
        if equal {
            self.redundant(0)
        } else {
            Err(Fault::Refused(SourceError::Inconsistent(0)))
        }
    }

    /// Makes two numbers equal, by the difference of the left one and the right one.
    ///
    /// Where that is known and at most 64 units of 2^-16, it is noted on a line that begins with `## redundant `; where
    /// it is more, the equation is `Inconsistent`. `WrongType`, `Overflow`, `CoefficientTooLarge` and `Limit` (more than
    /// 4,000,000 terms) refuse it too. Only an equation that is accepted changes what is known of unknowns.
    #[tactic(auto, unfolding(crate::specs::Equations::equate_numbers))]
    fn equate_numbers(&mut self, left: &Value, right: &Value) -> Result<(), Fault>
        requires left { IsWithin (reach left.now) (counts self.old) }
        requires right { IsWithin (reach right.now) (counts self.old) }
        ensures exact { Gives result self.new
            (equations.equate_numbers left.now right.now self.old) }
        ensures whole { IsWhole result self.old self.new }
        ensures counts { IsWithin (counts self.old) (counts self.new) }
    {
        let difference = self.store().difference(b"=", left, right)?;
        self.vanish(&difference)
    }

    /// Brings a difference up to date and makes it 0.
    #[tactic(auto, unfolding(crate::specs::Equations::vanish))]
    fn vanish(&mut self, difference: &Form) -> Result<(), Fault>
        requires over { reach_of_form difference.now ≤ unknown_count self.old }
        ensures exact { Gives result self.new
            (then (up_to_date difference.now self.old) (equations.vanish difference.now)) }
        ensures whole { IsWhole result self.old self.new }
        ensures counts { IsWithin (counts self.old) (counts self.new) }
    {
        match self.take(difference)? {
            Equated::Accepted => Ok(()),
            Equated::Redundant(residual) => self.redundant(residual),
            Equated::Inconsistent(off) => Err(Fault::Refused(SourceError::Inconsistent(off))),
            Equated::CoefficientTooLarge => Err(Fault::Refused(SourceError::CoefficientTooLarge)),
            Equated::Overflow => Err(Fault::Refused(SourceError::Overflow)),
            Equated::Limit => Err(Fault::Refused(SourceError::Limit(
                Cap::Terms,
                TERM_LIMIT as u32,
            ))),
        }
    }

    /// Has the solver take an equation; one that is accepted is the newest event. There is room for it before the
    /// unknowns change.
    fn take(&mut self, difference: &Form) -> Result<Equated, Fault>
        requires over { reach_of_form difference.now ≤ unknown_count self.old }
        ensures ok { IfOk result (λ answer. IsAnswer difference.now self.old answer
            self.new.unknowns.states) }
        ensures err { IfErr result (λ made. made ≢ WantOfMemory
            → up_to_date difference.now self.old ≡ Err (error_of made, self.old)) }
        ensures accepted { result ≡ Ok Equated.Accepted
            → self.new ≡ equations.with_equation self.old difference.now self.new.unknowns.states }
        ensures refused { result ≢ Ok Equated.Accepted → self.new ≡ self.old }
        ensures counts { IsWithin (counts self.old) (counts self.new) }
    {
        // Asked for its contract alone: a form's terms are in order, as an event's have to be.
        let _terms = difference.terms();
        if self.events.reserve(1).is_err() {
            return Err(Fault::NoMemory);
        }
        let ready = self.system.ready(difference)??;
        let answer = self.system.equate(ready);
        if let Equated::Accepted = answer {
            self.events
                .push_reserved(Event::Equation(Snapshot::of(difference)));
        }
        Ok(answer)
    }

    /// Notes an equation that holds already.
    fn redundant(&mut self, residual: i32) -> Result<(), Fault>
        ensures exact { Gives result self.new (equations.redundant residual self.old) }
        ensures whole { IsWhole result self.old self.new }
        ensures counts { IsWithin (counts self.old) (counts self.new) }
    {
        let mut line = Bytes::copy_of(self.alloc, b"## redundant ")?;
        push_scaled(&mut line, residual)?;
        self.add_line(line)
    }
}
