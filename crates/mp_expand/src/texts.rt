//! Text arguments, item by item.

ghost use Rattle.std.specs.Prelude.{◌≡◌};
ghost use Rattle.mp_values.specs.Outcome.{Yields};
ghost use Rattle.mp_values.specs.Ends.{IsNoEnd};
ghost use Rattle.mp_expand.specs.Texts as texts;
ghost use Rattle.mp_expand.specs.Fronts as fronts;
ghost use Rattle.mp_expand.specs.Expansion.{IsWhole};

use crate::calls::are_pair;
use crate::expander::Expander;
use crate::names::meaning_of;
use crate::request::{Call, Need, Request, Until};
use crate::step::Step;
use mp_report::SourceError;
use mp_scaled::{NoMemory, Shared};
use mp_symbols::Symbols;
use mp_values::{Item, Items, Meaning, Pending, Stop, Word};
use std::mem::replace;

/// What a symbol is in a text argument.
#[derive(Clone, Copy)]
pub enum Mark {
    /// It begins a pair of delimiters or a group inside the text.
    Begins,
    /// It ends one, or the text.
    Ends,
    /// It ends the text, where that stands inside none of these.
    Separates,
    /// It only stands there.
    Stands,
}

/// What a symbol is in a text that ends so.
fn mark_of(table: &Symbols<Meaning>, until: Until, symbol: u32) -> Mark
    ensures { result ≡ texts.mark_of until (fronts.meaning_of table.now.names symbol) }
{
    match (until, meaning_of(table, symbol)) {
        (Until::Delimiter(pair), Some(Meaning::Left(other))) if are_pair(pair, *other) =>
            Mark::Begins,
        (Until::Delimiter(pair), Some(Meaning::Right(other))) if are_pair(pair, *other) =>
            Mark::Ends,
        (Until::Statement, Some(Meaning::Word(Word::Begingroup))) => Mark::Begins,
        (Until::Statement, Some(Meaning::Word(Word::Endgroup))) => Mark::Ends,
        (Until::Statement, Some(Meaning::Word(Word::Semicolon | Word::End))) => Mark::Separates,
        _ => Mark::Stands,
    }
}

impl Expander {
    /// One more item of a text, inside so many pairs.
    fn text_item(
        &mut self,
        mut call: Call,
        until: Until,
        item: Item,
        depth: u32,
    ) -> Result<Step, Stop>
        requires { IsNoEnd item }
        ensures exact { Yields result self.new (texts.with_item call until item depth self.old) }
        ensures kept { self.new.budget ≡ self.old.budget }
        ensures whole { IsWhole result self.old self.new }
    {
        call.text.push(item)?;
        self.passed_over(call, until, depth)
    }

    /// What is no part of the text is passed over.
    fn passed_over(&mut self, call: Call, until: Until, depth: u32) -> Result<Step, Stop>
        ensures exact { Yields result self.new (texts.passed_over call until depth self.old) }
        ensures kept { self.new.budget ≡ self.old.budget }
        ensures whole { IsWhole result self.old self.new }
    {
        self.wait(Request::Call(call, Need::Text(until, depth)))?;
        Ok(Step::More)
    }

    /// The text ends at a symbol: a right delimiter is used up, what ends a statement stands behind the body again.
    fn text_ends(&mut self, mut call: Call, until: Until, symbol: u32) -> Result<Step, Stop>
        ensures exact { Yields result self.new (texts.text_ends call until symbol self.old) }
        ensures kept { self.new.budget ≡ self.old.budget }
        ensures whole { IsWhole result self.old self.new }
    {
        let alloc = self.alloc;
        let items = replace(&mut call.text, Items::new(alloc));
        let call = call.with_argument(alloc, Shared::new(alloc, items)?)?;
        match until {
            Until::Delimiter(_) => self.go_on(call),
            Until::Statement => self.whole_before(call, Item::Symbol(symbol)),
        }
    }

    /// The body comes to stand in front of an item, in front of the text.
    fn whole_before(&mut self, call: Call, item: Item) -> Result<Step, Stop>
        requires { IsNoEnd item }
        ensures exact { Yields result self.new (texts.whole_before call item self.old) }
        ensures kept { self.new.budget ≡ self.old.budget }
        ensures whole { IsWhole result self.old self.new }
    {
        let body = call.called.get().body.share()?;
        self.input.reserve(2)?;
        self.input.push_item(item);
        self.input.push_text(body, call.got);
        Ok(Step::More)
    }

    /// One more symbol: delimiters and groups are counted by what symbols mean.
    fn text_symbol(
        &mut self,
        call: Call,
        until: Until,
        depth: u32,
        symbol: u32,
        mark: Mark,
    ) -> Result<Step, Stop>
        ensures exact { Yields result self.new (texts.symbol_in_text call until depth symbol mark self.old) }
        ensures kept { self.new.budget ≡ self.old.budget }
        ensures whole { IsWhole result self.old self.new }
    {
        let item = Item::Symbol(symbol);
        match mark {
            Mark::Begins => {
                let Some(deeper) = depth.checked_add(1) else {
                    return Err(Stop::from(NoMemory));
                };
                self.text_item(call, until, item, deeper)
            }
            Mark::Ends => match depth.checked_sub(1) {
                Some(risen) => self.text_item(call, until, item, risen),
                None => self.text_ends(call, until, symbol),
            },
            Mark::Separates if depth == 0 => self.text_ends(call, until, symbol),
            Mark::Separates | Mark::Stands => self.text_item(call, until, item, depth),
        }
    }

    /// An item as it stands.
    fn item_in_text(
        &mut self,
        table: &Symbols<Meaning>,
        call: Call,
        until: Until,
        depth: u32,
        item: Item,
    ) -> Result<Step, Stop>
        ensures exact { Yields result self.new (texts.item_in_text table.now.names call until depth item self.old) }
        ensures kept { self.new.budget ≡ self.old.budget }
        ensures whole { IsWhole result self.old self.new }
    {
        match item {
            Item::LineEnd(_) => self.passed_over(call, until, depth),
            Item::FileEnd | Item::EndOfText => Err(Stop::Refused(SourceError::FileEndedInText)),
            Item::Bad(cause) => Err(Stop::from(cause)),
            Item::Symbol(symbol) => {
                let mark = mark_of(table, until, symbol);
                self.text_symbol(call, until, depth, symbol, mark)
            }
            item => self.text_item(call, until, item, depth),
        }
    }

    /// What was taken while a call reads a text; the end of the text is refused.
    pub(crate) fn taken_in_text(
        &mut self,
        table: &Symbols<Meaning>,
        call: Call,
        until: Until,
        depth: u32,
        taken: Option<Pending>,
    ) -> Result<Step, Stop>
        ensures exact { Yields result self.new (texts.taken_in_text table.now.names call until depth taken self.old) }
        ensures kept { self.new.budget ≡ self.old.budget }
        ensures whole { IsWhole result self.old self.new }
    {
        match taken {
            Some(Pending::Item(item)) => self.item_in_text(table, call, until, depth, item),
            Some(Pending::Turn(_)) => self.passed_over(call, until, depth),
            None => Err(Stop::Refused(SourceError::FileEndedInText)),
        }
    }
}
