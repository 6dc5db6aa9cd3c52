//! Fronts and raw items: how the next one is got, and how calls of macros are answered on the way.

ghost use Rattle.std.specs.Prelude.{map};
ghost use Rattle.mp_values.specs.Outcome.{give};
ghost use Rattle.mp_acts.specs.Counts.{IsWithin, greatest};
ghost use Rattle.mp_acts.specs.Reach.{reach, reach_of_part};
ghost use Rattle.mp_rules.specs.Machine.{things};
ghost use Rattle.mp_rules.specs.Rules.{NextFront, NextRaw, Asked, raw_symbol};
ghost use Rattle.mp_rules.specs.Rules as rules;
ghost use Rattle.mp_rules.specs.Promises.{Means, ActsAnswer, UsesSymbol};
ghost use Rattle.mp_rules.specs.Meaning.{the};

use crate::evaluator::Evaluator;
use crate::front::{Raw, Taken};
use crate::names::{answer_of_suffix, answer_of_value};
use mp_expand::{Answer, Front, Operand, Step, Want};
use mp_values::{Condition, Stop, Value};
use mp_vartree::Suffix;

impl Evaluator {
    /// The next front comes to hand: ends of lines and of files are passed over, and macros are called.
    #[cycle(eval)]
    #[tactic(auto, using(crate::proofs::Cases::next_front_is, crate::proofs::FrontLemmas::next_more, crate::proofs::FrontLemmas::next_wanted))]
    pub(crate) fn next_front(&mut self) -> Result<(), Stop>
        ensures { Means NextFront result self.old self.new }
    {
        'items: loop {
            if let Some(front) = self.release() {
                self.see(front);
                return Ok(());
            }
            match self.advance()? {
                Step::More => {}
                Step::Front(front) => {
                    self.see(front);
                    return Ok(());
                }
                Step::Text(bytes) => {
                    self.see_string(bytes);
                    return Ok(());
                }
                Step::Capsule(value) => {
                    self.see_value(value);
                    return Ok(());
                }
                Step::Want(want) => self.asked(want)?,
            }
        }
    }

    /// What a call asks for, from the next front on, and what it asks for then.
    #[cycle(eval)]
    #[tactic(auto, using(crate::proofs::Cases::asked_is))]
    pub(crate) fn asked(&mut self, first: Want) -> Result<(), Stop>
        ensures { Means (Asked first) result self.old self.new }
    {
        let mut want = first;
        'operands: loop {
            self.next_front()?;
            let answer = self.answer_to(want)?;
            match self.answer(answer)? {
                Step::Want(next) => want = next,
                _ => return Ok(()),
            }
        }
    }

    /// What is answered to a call, with its first front in hand. What stands behind an argument without delimiters is
    /// put back.
    #[cycle(eval)]
    fn answer_to(&mut self, want: Want) -> Result<Answer, Stop>
        ensures { ActsAnswer (rules.answer_to the want) result self.old self.new }
    {
        match want {
            Want::Followed(operand) => self.operand(operand),
            Want::Last(operand) => {
                let answer = self.operand(operand)?;
                self.put_hand_back()?;
                Ok(answer)
            }
        }
    }

    /// What is read for a call, with its first front in hand.
    #[cycle(eval)]
    fn operand(&mut self, operand: Operand) -> Result<Answer, Stop>
        ensures { ActsAnswer (rules.operand_of the operand) result self.old self.new }
    {
        let value = match operand {
            Operand::Primary => self.primary()?,
            Operand::Secondary => self.secondary()?,
            Operand::Tertiary => self.tertiary()?,
            Operand::Expression => self.expression()?,
            Operand::Suffix => {
                let parts = self.suffix()?;
                return self.suffix_answer(parts);
            }
            Operand::Condition(word) => {
                let value = self.expression()?;
                return self.truth_answer(word, value);
            }
        };
        self.value_answer(value)
    }

    fn value_answer(&self, value: Value) -> Result<Answer, Stop>
        requires { IsWithin (reach value) (things self.now) }
        ensures { ActsAnswer (give (Answer.Value value)) result self.now self.now }
    {
        let answer = answer_of_value(self.alloc, value)?;
        Ok(answer)
    }

    /// The operand of a condition is a truth.
    fn truth_answer(&self, word: Condition, value: Value) -> Result<Answer, Stop>
        requires { IsWithin (reach value) (things self.now) }
        ensures { ActsAnswer (rules.truth_of word value) result self.now self.now }
    {
        let truth = self.truth_of(word.name(), value)?;
        Ok(Answer::Truth(truth))
    }

    fn suffix_answer(&self, parts: Suffix) -> Result<Answer, Stop>
        requires { IsWithin (greatest reach_of_part parts) (things self.now) }
        ensures { ActsAnswer (give (Answer.Suffix (map rules.item_of_part parts))) result self.now self.now }
    {
        let answer = answer_of_suffix(self.alloc, parts.as_slice())?;
        Ok(answer)
    }

    /// The next item as it stands; line ends and file ends are passed over.
    #[tactic(auto, using(crate::proofs::Cases::next_raw_is))]
    pub(crate) fn raw(&mut self) -> Result<Raw, Stop>
        ensures { Means NextRaw result self.old self.new }
    {
        'items: loop {
            self.see(Front::EndOfText);
            match Taken::of(self.take()?) {
                Taken::Raw(raw) => return Ok(raw),
                Taken::Bad(cause) => return Err(Stop::from(cause)),
                Taken::Passed => {}
            }
        }
    }

    /// A symbol as it stands.
    pub(crate) fn raw_symbol(&mut self) -> Result<u32, Stop>
        ensures { UsesSymbol (raw_symbol the) result self.old self.new }
    {
        match self.raw()? {
            Raw::Symbol(symbol) => Ok(symbol),
            other => Err(self.unexpected_raw(b"symbol", other)),
        }
    }
}
