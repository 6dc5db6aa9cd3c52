//! Expansion: what comes of the next item.

ghost use Rattle.std.specs.Prelude.{◌≡◌, Option, None};
ghost use Rattle.mp_values.specs.Outcome.{Yields};
ghost use Rattle.mp_expand.specs.Advance as advance;
ghost use Rattle.mp_expand.specs.Fronts as fronts;
ghost use Rattle.mp_expand.specs.Expansion.{IsWhole, LosesCall, LosesFirst};

use crate::Front;
use crate::expander::Expander;
use crate::names::meaning_of;
use crate::request::{Call, Delimited, Opener, Reader};
use crate::step::Step;
use mp_report::SourceError;
use mp_scaled::Shared;
use mp_symbols::Symbols;
use mp_values::{Arguments, Item, Level, Macro, Meaning, Pending, Stop, Word};

/// The front that was reached.
fn front_of(step: &Step) -> Front
    ensures { result ≡ advance.front_of step.now }
{
    match step {
        Step::Front(front) => *front,
        Step::Text(_) => Front::Text,
        Step::Capsule(_) => Front::Capsule,
        Step::More | Step::Want(_) => Front::EndOfText,
    }
}

impl Expander {
    /// The next item: a front, an operand that is needed, or nothing yet. Line ends and file ends are passed over,
    /// macros are called, and conditions choose what is read. A bad token, a word that is not built, and what stands
    /// where a call or a condition cannot go on, are refused.
    #[tactic(auto, unfolding(crate::specs::Advance::advance))]
    pub fn next(&mut self, table: &Symbols<Meaning>) -> Result<Step, Stop>
        ensures exact { Yields result self.new (advance.advance table.now.names self.old) }
        ensures kept { self.new.budget ≡ self.old.budget }
        ensures lost { LosesFirst result self.old self.new }
    {
        let taken = self.take()?;
        self.taken(table, taken)
    }

    fn taken(&mut self, table: &Symbols<Meaning>, taken: Option<Pending>) -> Result<Step, Stop>
        ensures exact { Yields result self.new (advance.taken table.now.names taken self.old) }
        ensures kept { self.new.budget ≡ self.old.budget }
        ensures lost { LosesCall result self.old self.new }
    {
        match self.reading() {
            Some(Reader::Text(call, until, depth)) => {
                self.taken_in_text(table, call, until, depth, taken)
            }
            Some(Reader::Skip(skip, depth)) => self.skipped(table, skip, depth, taken),
            None => self.expanded(table, taken),
        }
    }

    fn expanded(&mut self, table: &Symbols<Meaning>, taken: Option<Pending>) -> Result<Step, Stop>
        ensures exact { Yields result self.new (advance.expanded table.now.names taken self.old) }
        ensures kept { self.new.budget ≡ self.old.budget }
        ensures lost { LosesCall result self.old self.new }
    {
        match taken {
            Some(Pending::Item(item)) => self.item_expanded(table, item),
            Some(Pending::Turn(_)) => Ok(Step::More),
            None => self.reached(table, Step::Front(Front::EndOfText)),
        }
    }

    fn item_expanded(&mut self, table: &Symbols<Meaning>, item: Item) -> Result<Step, Stop>
        ensures exact { Yields result self.new (advance.item_expanded table.now.names item self.old) }
        ensures kept { self.new.budget ≡ self.old.budget }
        ensures lost { LosesCall result self.old self.new }
    {
        match item {
            Item::Symbol(symbol) => self.symbol_expanded(table, symbol),
            Item::Number(value) => self.reached(table, Step::Front(Front::Number(value))),
            Item::Text(bytes) => self.reached(table, Step::Text(bytes)),
            Item::Bad(cause) => Err(Stop::from(cause)),
            Item::Capsule(value) => self.reached(table, Step::Capsule(value)),
            Item::Param(_) | Item::LineEnd(_) | Item::FileEnd | Item::EndOfText => Ok(Step::More),
        }
    }

    /// A symbol by what it means.
    fn symbol_expanded(&mut self, table: &Symbols<Meaning>, symbol: u32) -> Result<Step, Stop>
        ensures exact { Yields result self.new (advance.symbol_expanded table.now.names symbol
            (fronts.meaning_of table.now.names symbol) self.old) }
        ensures kept { self.new.budget ≡ self.old.budget }
        ensures lost { LosesCall result self.old self.new }
    {
        let front = match meaning_of(table, symbol) {
            Some(Meaning::Word(Word::Backslash)) => return Ok(Step::More),
            Some(Meaning::Word(Word::Condition(word))) => return self.condition_met(*word),
            Some(Meaning::Word(word)) => Front::Word(symbol, *word),
            Some(Meaning::Unbuilt(word)) => return Err(Stop::not_built(self.alloc, word.name())),
            Some(Meaning::NewTag | Meaning::Tag(_)) | None => Front::Tag(symbol),
            Some(Meaning::Internal(k)) => Front::Internal(symbol, *k),
            Some(Meaning::Left(pair)) => Front::Left(symbol, *pair),
            Some(Meaning::Right(pair)) => Front::Right(symbol, *pair),
            Some(Meaning::Macro(called)) => return self.macro_expanded(table, symbol, called),
        };
        self.reached(table, Step::Front(front))
    }

    /// The macro of `def` is called; any other joins operands, and is a front.
    fn macro_expanded(
        &mut self,
        table: &Symbols<Meaning>,
        symbol: u32,
        called: &Shared<Macro>,
    ) -> Result<Step, Stop>
        ensures exact { Yields result self.new (advance.macro_by table.now.names symbol called.now called.now.level self.old) }
        ensures kept { self.new.budget ≡ self.old.budget }
        ensures lost { LosesCall result self.old self.new }
    {
        let alloc = self.alloc;
        match called.get().level {
            Level::Plain => self.call(called.share()?, Arguments::new(alloc)),
            _ => self.reached(table, Step::Front(Front::Operator(symbol))),
        }
    }

    /// A front is what was looked for, unless a call needs a left delimiter, or an `else` its `:`.
    fn reached(&mut self, table: &Symbols<Meaning>, step: Step) -> Result<Step, Stop>
        ensures exact { Yields result self.new (advance.reached table.now.names step self.old) }
        ensures kept { self.new.budget ≡ self.old.budget }
        ensures lost { LosesCall result self.old self.new }
    {
        match self.opening() {
            Some(Opener::Argument(call, kind)) => self.opened(call, kind, step),
            Some(Opener::Branch) => self.else_branch(table, front_of(&step)),
            None => Ok(step),
        }
    }

    fn opened(&mut self, call: Call, kind: Delimited, step: Step) -> Result<Step, Stop>
        ensures exact { Yields result self.new (advance.opened call kind step self.old) }
        ensures kept { self.new.budget ≡ self.old.budget }
        ensures whole { IsWhole result self.old self.new }
    {
        match step {
            Step::Front(Front::Left(_, pair)) => self.argument(call, pair, kind),
            _ => Err(Stop::Refused(SourceError::BadArguments)),
        }
    }
}
