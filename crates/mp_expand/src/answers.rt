//! Expansion: what comes of an answer.

ghost use Rattle.std.specs.Prelude.{◌≡◌, IfOk};
ghost use Rattle.mp_values.specs.Outcome.{IsStop, Yields};
ghost use Rattle.mp_values.specs.Refusals.{unexpected};
ghost use Rattle.mp_expand.specs.Advance as advance;
ghost use Rattle.mp_expand.specs.Fronts as fronts;
ghost use Rattle.mp_expand.specs.Expansion.{IsWhole, LosesFirst};

use crate::Front;
use crate::calls::are_pair;
use crate::expander::Expander;
use crate::names::name_of;
use crate::request::{Asker, Behind, Call};
use crate::step::{Answer, Operand, Step};
use mp_report::SourceError;
use mp_scaled::{NoMemory, Shared};
use mp_symbols::Symbols;
use mp_values::{Delimiters, Item, Items, Meaning, Stop, Value, Word};
use std::alloc::Global;

/// A value as a text.
fn capsule(alloc: Global, value: Shared<Value>) -> Result<Shared<Items>, NoMemory>
    ensures { IfOk result (λ items. items ≡ advance.capsule value) }
{
    let mut items = Items::new(alloc);
    items.push(Item::Capsule(value))?;
    Shared::new(alloc, items)
}

/// What stands in the text for an answer.
fn items_of(alloc: Global, answer: Answer) -> Result<Shared<Items>, NoMemory>
    ensures { IfOk result (λ items. items ≡ advance.items_of answer) }
{
    match answer {
        Answer::Value(value) => capsule(alloc, value),
        Answer::Suffix(items) => Ok(items),
        Answer::Truth(truth) => capsule(alloc, Shared::new(alloc, Value::Boolean(truth))?),
    }
}

/// Whether a condition is true by an answer.
fn is_true(answer: &Answer) -> bool
    ensures { result ≡ advance.is_true answer.now }
{
    match answer {
        Answer::Truth(truth) => *truth,
        Answer::Value(_) | Answer::Suffix(_) => false,
    }
}

impl Expander {
    /// What waits for an answer gets it, with the front that stands behind it, which is used up: a call asks for more,
    /// or goes on with the text, and so does a condition that is true. A front that was put back is not looked at. An
    /// answer that nothing waits for does nothing.
    ///
    /// `BadArguments` where an argument is missing or in excess, `Unexpected` where the last one is not closed, or `of`
    /// or the `:` of a condition is missing.
    #[tactic(auto, unfolding(crate::specs::Advance::answered))]
    pub fn answer(
        &mut self,
        table: &Symbols<Meaning>,
        answer: Answer,
        front: Front,
    ) -> Result<Step, Stop>
        ensures exact { Yields result self.new (advance.answered table.now.names answer front self.old) }
        ensures kept { self.new.budget ≡ self.old.budget }
        ensures lost { LosesFirst result self.old self.new }
    {
        match self.asking() {
            Some(Asker::Argument(call, behind)) => {
                let alloc = self.alloc;
                let items = items_of(alloc, answer)?;
                self.leave();
                let call = call.with_argument(alloc, items)?;
                self.behind(table, call, behind, front)
            }
            Some(Asker::Branch) => {
                self.leave();
                self.branch(table, is_true(&answer), front)
            }
            None => Ok(Step::More),
        }
    }

    /// Behind an argument that was asked for.
    fn behind(
        &mut self,
        table: &Symbols<Meaning>,
        call: Call,
        behind: Behind,
        front: Front,
    ) -> Result<Step, Stop>
        ensures exact { Yields result self.new (advance.behind table.now.names call behind front self.old) }
        ensures kept { self.new.budget ≡ self.old.budget }
        ensures whole { IsWhole result self.old self.new }
    {
        match behind {
            Behind::Delimiter(pair) => self.delimited(table, call, pair, front),
            Behind::Of => self.of(table, call, front),
            Behind::Anything => self.whole(call),
        }
    }

    /// Behind an argument between delimiters: a comma and another one, or the right delimiter.
    fn delimited(
        &mut self,
        table: &Symbols<Meaning>,
        call: Call,
        pair: Delimiters,
        front: Front,
    ) -> Result<Step, Stop>
        ensures exact { Yields result self.new (advance.delimited table.now.names call pair front self.old) }
        ensures kept { self.new.budget ≡ self.old.budget }
        ensures whole { IsWhole result self.old self.new }
    {
        let next = call.argument_next();
        match (front, next) {
            (Front::Word(_, Word::Comma), Some(kind)) => self.argument(call, pair, kind),
            (Front::Word(_, Word::Comma), None) => Err(Stop::Refused(SourceError::BadArguments)),
            (Front::Right(_, other), _) if are_pair(pair, other) => self.go_on(call),
            (_, Some(_)) => Err(Stop::Refused(SourceError::BadArguments)),
            (_, None) => Err(self.unexpected(table, name_of(table, pair.right), front)),
        }
    }

    /// Behind the first of two arguments without delimiters.
    fn of(&mut self, table: &Symbols<Meaning>, call: Call, front: Front) -> Result<Step, Stop>
        ensures exact { Yields result self.new (advance.of_by table.now.names call front self.old) }
        ensures kept { self.new.budget ≡ self.old.budget }
        ensures whole { IsWhole result self.old self.new }
    {
        match front {
            Front::Word(_, Word::Of) => self.ask_last(call, Operand::Primary),
            _ => Err(self.unexpected(table, b"of", front)),
        }
    }

    pub(crate) fn unexpected(&self, table: &Symbols<Meaning>, wanted: &[u8], front: Front) -> Stop
        ensures { IsStop result (unexpected wanted.now (fronts.stood table.now.names front)) }
    {
        Stop::unexpected(self.alloc, wanted, front.stood(table))
    }
}
