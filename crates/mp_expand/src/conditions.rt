//! Conditions: what comes of their words, and of what they pass over.

ghost use Rattle.std.specs.Prelude.{◌≡◌, OnOk, OnErr};
ghost use Rattle.mp_values.specs.Outcome.{Yields};
ghost use Rattle.mp_expand.specs.Conditions as conditions;
ghost use Rattle.mp_expand.specs.Fronts as fronts;
ghost use Rattle.mp_expand.specs.Expansion.{IsWhole};

use crate::Front;
use crate::expander::Expander;
use crate::names::meaning_of;
use crate::request::{Branch, Request, Skip};
use crate::step::{Operand, Step, Want};
use mp_report::SourceError;
use mp_scaled::NoMemory;
use mp_symbols::Symbols;
use mp_values::{Condition, Item, Meaning, Pending, Stop, Word};

/// The word of a condition that a symbol means.
fn condition_of(table: &Symbols<Meaning>, symbol: u32) -> Option<Condition>
    ensures { result ≡ conditions.condition_in (fronts.meaning_of table.now.names symbol) }
{
    match meaning_of(table, symbol) {
        Some(Meaning::Word(Word::Condition(word))) => Some(*word),
        _ => None,
    }
}

impl Expander {
    /// A condition asks whether it is true.
    fn ask_truth(&mut self, word: Condition) -> Result<Step, Stop>
        ensures exact { Yields result self.new (conditions.ask_truth word self.old) }
        ensures kept { self.new.budget ≡ self.old.budget }
        ensures whole { IsWhole result self.old self.new }
    {
        self.request(
            Request::Truth(word),
            Want::Followed(Operand::Condition(word)),
        )
    }

    /// More is passed over, inside so many conditions.
    fn skip(&mut self, skip: Skip, depth: u32) -> Result<Step, Stop>
        ensures exact { Yields result self.new (conditions.pass skip depth self.old) }
        ensures kept { self.new.budget ≡ self.old.budget }
        ensures whole { IsWhole result self.old self.new }
    {
        self.wait(Request::Skip(skip, depth))?;
        Ok(Step::More)
    }

    /// One more condition is open.
    fn add_branch(&mut self, branch: Branch) -> Result<(), NoMemory>
        ensures ok { OnOk result (self.new ≡ conditions.with_branch branch self.old) }
        ensures err { OnErr result (self.new ≡ self.old) }
    {
        self.conditions.push(branch)?;
        Ok(())
    }

    /// A branch is read: the text goes on.
    fn open_branch(&mut self, branch: Branch) -> Result<Step, Stop>
        ensures exact { Yields result self.new (conditions.open_branch branch self.old) }
        ensures kept { self.new.budget ≡ self.old.budget }
        ensures whole { IsWhole result self.old self.new }
    {
        self.add_branch(branch)?;
        Ok(Step::More)
    }

    /// The `:` behind the heading of a branch.
    fn colon(&self, table: &Symbols<Meaning>, front: Front) -> Result<(), Stop>
        ensures { Yields result self.now (conditions.colon table.now.names front self.now) }
    {
        match front {
            Front::Word(_, Word::Colon) => Ok(()),
            _ => Err(self.unexpected(table, b":", front)),
        }
    }

    /// The branch that a condition begins, by its truth and the front behind it.
    pub(crate) fn branch(
        &mut self,
        table: &Symbols<Meaning>,
        truth: bool,
        front: Front,
    ) -> Result<Step, Stop>
        ensures exact { Yields result self.new (conditions.branch table.now.names truth front self.old) }
        ensures kept { self.new.budget ≡ self.old.budget }
        ensures whole { IsWhole result self.old self.new }
    {
        self.colon(table, front)?;
        if truth {
            self.open_branch(Branch::BeforeElse)
        } else {
            self.skip(Skip::ToBranch, 0)
        }
    }

    /// The branch behind an `else`, by the front behind that.
    pub(crate) fn else_branch(
        &mut self,
        table: &Symbols<Meaning>,
        front: Front,
    ) -> Result<Step, Stop>
        ensures exact { Yields result self.new (conditions.else_branch table.now.names front self.old) }
        ensures kept { self.new.budget ≡ self.old.budget }
        ensures whole { IsWhole result self.old self.new }
    {
        self.colon(table, front)?;
        self.open_branch(Branch::BehindElse)
    }

    /// A word of a condition in the text that is read.
    pub(crate) fn condition_met(&mut self, word: Condition) -> Result<Step, Stop>
        ensures exact { Yields result self.new (conditions.condition_met word self.old) }
        ensures kept { self.new.budget ≡ self.old.budget }
        ensures whole { IsWhole result self.old self.new }
    {
        match (word, self.conditions.last()) {
            (Condition::If, _) => self.ask_truth(word),
            (Condition::Fi, Some(_)) => {
                self.conditions.pop();
                Ok(Step::More)
            }
            (_, Some(Branch::BeforeElse)) => {
                self.conditions.pop();
                self.skip(Skip::ToEnd, 0)
            }
            _ => Err(Stop::Refused(SourceError::LoneConditionWord)),
        }
    }

    /// A word of a condition in a part that is passed over.
    fn condition_skipped(&mut self, skip: Skip, depth: u32, word: Condition) -> Result<Step, Stop>
        ensures exact { Yields result self.new (conditions.condition_skipped skip depth word self.old) }
        ensures kept { self.new.budget ≡ self.old.budget }
        ensures whole { IsWhole result self.old self.new }
    {
        match (word, depth.checked_sub(1), skip) {
            (Condition::If, _, _) => match depth.checked_add(1) {
                Some(deeper) => self.skip(skip, deeper),
                None => Err(Stop::from(NoMemory)),
            },
            (Condition::Fi, Some(risen), _) => self.skip(skip, risen),
            (Condition::Fi, None, _) => Ok(Step::More),
            (Condition::Elseif, None, Skip::ToBranch) => self.ask_truth(word),
            (Condition::Else, None, Skip::ToBranch) => {
                self.wait(Request::Colon)?;
                Ok(Step::More)
            }
            _ => self.skip(skip, depth),
        }
    }

    /// An item that is passed over.
    fn item_skipped(
        &mut self,
        table: &Symbols<Meaning>,
        skip: Skip,
        depth: u32,
        item: Item,
    ) -> Result<Step, Stop>
        ensures exact { Yields result self.new (conditions.item_skipped table.now.names skip depth item self.old) }
        ensures kept { self.new.budget ≡ self.old.budget }
        ensures whole { IsWhole result self.old self.new }
    {
        match item {
            Item::Symbol(symbol) => match condition_of(table, symbol) {
                Some(word) => self.condition_skipped(skip, depth, word),
                None => self.skip(skip, depth),
            },
            Item::FileEnd | Item::EndOfText => Err(Stop::Refused(SourceError::FileEndedInText)),
            Item::Bad(cause) => Err(Stop::from(cause)),
            _ => self.skip(skip, depth),
        }
    }

    /// What was taken while a part is passed over; the end of the text is refused.
    pub(crate) fn skipped(
        &mut self,
        table: &Symbols<Meaning>,
        skip: Skip,
        depth: u32,
        taken: Option<Pending>,
    ) -> Result<Step, Stop>
        ensures exact { Yields result self.new (conditions.skipped table.now.names skip depth taken self.old) }
        ensures kept { self.new.budget ≡ self.old.budget }
        ensures whole { IsWhole result self.old self.new }
    {
        match taken {
            Some(Pending::Item(item)) => self.item_skipped(table, skip, depth, item),
            Some(Pending::Turn(_)) => self.skip(skip, depth),
            None => Err(Stop::Refused(SourceError::FileEndedInText)),
        }
    }
}
