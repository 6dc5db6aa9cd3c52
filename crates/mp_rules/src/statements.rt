//! Statements, and lists of them.

ghost use Rattle.std.specs.Prelude.{◌≡◌};
ghost use Rattle.mp_rules.specs.Rules.{Statement, GroupStatements, Statements};
ghost use Rattle.mp_rules.specs.Promises.{Means, Acts};
ghost use Rattle.mp_rules.specs.Rules as rules;

use crate::evaluator::Evaluator;
use mp_expand::Front;
use mp_report::SourceError;
use mp_values::{Kind, Stop, Value, Word};

impl Evaluator {
    /// A statement, up to the front that ends it. The answer is the value of an expression that stands alone.
    #[cycle(eval)]
    #[tactic(auto, using(crate::proofs::Cases::statement_is))]
    fn statement(&mut self) -> Result<Value, Stop>
        ensures { Means Statement result self.old self.new }
    {
        match self.sign() {
            Front::EndOfText | Front::Word(_, Word::Semicolon | Word::Endgroup | Word::End) => {
                Ok(Value::Vacuous)
            }
            Front::Word(_, Word::Command(command)) => {
                self.command_rest(command)?;
                Ok(Value::Vacuous)
            }
            Front::Word(_, Word::Definition(word)) => {
                self.definition(word)?;
                self.next_front()?;
                Ok(Value::Vacuous)
            }
            sign => if sign.begins_primary() {
                self.chain()
            } else {
                Err(self.unexpected(b"statement"))
            },
        }
    }

    /// An expression that stands alone is a string, with or without a value, or vacuous.
    fn may_stand_alone(&self, value: Value) -> Result<(), Stop>
        ensures { Acts (rules.may_stand_alone value) result self.now self.now }
    {
        match value {
            Value::Vacuous | Value::Text(_) | Value::Unset(Kind::Text, _) => Ok(()),
            Value::Unset(_, _) | Value::Numeric(_) | Value::Boolean(_) => Err(self.unexpected(
                b"=",
            )),
        }
    }

    /// The statements of a group, up to its end. The answer is the value of the last one.
    #[cycle(eval)]
    #[tactic(auto, using(crate::proofs::Cases::group_statements_is))]
    pub(crate) fn group_statements(&mut self) -> Result<Value, Stop>
        ensures { Means GroupStatements result self.old self.new }
    {
        'statements: loop {
            let value = self.statement()?;
            if let Front::Word(_, Word::Endgroup) = self.sign() {
                return Ok(value);
            }
            self.may_stand_alone(value)?;
            match self.sign() {
                Front::Word(_, Word::Semicolon) => self.next_front()?,
                Front::Word(_, Word::End) | Front::EndOfText => {
                    return Err(self.unexpected(b"endgroup"));
                }
                _ => return Err(self.unexpected(b";")),
            }
        }
    }

    /// Statements up to `end` or the end of the text.
    #[tactic(auto, using(crate::proofs::Cases::statements_is))]
    pub(crate) fn statements(&mut self) -> Result<(), Stop>
        ensures { Means Statements result self.old self.new }
    {
        'statements: loop {
            let value = self.statement()?;
            self.may_stand_alone(value)?;
            match self.sign() {
                Front::Word(_, Word::Semicolon) => self.next_front()?,
                Front::Word(_, Word::End) | Front::EndOfText => return Ok(()),
                Front::Word(_, Word::Endgroup) => return Err(Stop::Refused(
                    SourceError::LoneEndgroup,
                )),
                _ => return Err(self.unexpected(b";")),
            }
        }
    }
}
