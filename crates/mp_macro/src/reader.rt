//! The reader of definitions.

ghost use Rattle.std.specs.Prelude.{◌≡◌, All, IfOk, length};
ghost use Rattle.mp_values.specs.Outcome.{Gives};
ghost use Rattle.mp_values.specs.Ends.{IsNoEnd};
ghost use Rattle.mp_macro.specs.Definitions as definitions;
ghost use Rattle.mp_macro.specs.Definitions.{Answers};
ghost use Rattle.mp_macro.specs.Numbered.{IsBelow};

use crate::defined::Defined;
use crate::stage::Stage;
use mp_report::SourceError;
use mp_scaled::{Listing, NoMemory, Shared};
use mp_symbols::Symbols;
use mp_values::{Definition, Fault, Item, Items, Level, Macro, Meaning, Params};
use mp_vartree::Pattern;
use std::alloc::Global;
use std::marker::Model;

/// The symbols `begingroup` and `endgroup`, between which the body of a variable's macro stands.
#[derive(Clone, Copy, PartialEq, Eq)]
pub struct GroupSymbols {
    pub begin: u32,
    pub end: u32,
}

/// A definition that is read item by item. Contracts see what was read of it.
#[derive(Drop)]
pub struct MacroReader {
    pub(crate) alloc: Global,
    pub(crate) word: Definition,
    pub(crate) group: GroupSymbols,
    pub(crate) next: Stage,
    pub(crate) symbol: u32,
    pub(crate) parts: Pattern,
    pub(crate) suffixed: bool,
    pub(crate) kinds: Params,
    pub(crate) names: Listing<u32>,
    pub(crate) body: Items,
}

impl Model for MacroReader {
    ghost use Rattle.std.specs.Prelude.{length, ◌≤◌};
    ghost use Rattle.mp_macro.specs.Headings.{Reading};
    ghost use Rattle.mp_macro.specs.declared.limits.TheConstants.{PARAMETER_LIMIT};

    ghost Value = { Reading };

    ghost view = { λ r. record {
      word = r.word;
      group = r.group;
      next = r.next;
      symbol = r.symbol;
      parts = r.parts;
      suffixed = r.suffixed;
      kinds = r.kinds;
      names = r.names;
      body = r.body;
    } };

    ghost invariant = { λ r. length r.names ≤ PARAMETER_LIMIT };
}

impl MacroReader {
    /// A definition behind the word that it begins with.
    pub fn new(alloc: Global, word: Definition, group: GroupSymbols) -> MacroReader
        ensures { result ≡ definitions.start word group }
    {
        MacroReader {
            alloc,
            word,
            group,
            next: first_stage(word),
            symbol: 0,
            parts: Listing::new(alloc),
            suffixed: false,
            kinds: Listing::new(alloc),
            names: Listing::new(alloc),
            body: Items::new(alloc),
        }
    }

    /// One more item, as it was taken off the text; its symbol is one of the table's. It is refused exactly where the
    /// definition cannot go on with it, and then what was read stays as it was.
    #[tactic(auto, unfolding(crate::specs::Definitions::read))]
    pub fn read(&mut self, table: &Symbols<Meaning>, item: Item) -> Result<(), Fault>
        requires { IsBelow (length table.now.names) item }
        ensures { Gives result self.new (definitions.read table.now.names item self.old) }
    {
        match item {
            Item::LineEnd(_) => Ok(()),
            Item::FileEnd | Item::EndOfText => Err(Fault::Refused(SourceError::FileEndedInText)),
            Item::Bad(cause) => Err(Fault::from(cause)),
            item => self.item(table, item),
        }
    }

    /// An item that is no end, where something may stand next.
    fn item(&mut self, table: &Symbols<Meaning>, item: Item) -> Result<(), Fault>
        requires end { IsNoEnd item }
        requires symbol { IsBelow (length table.now.names) item }
        ensures { Gives result self.new (definitions.item_at table.now.names self.old.next item self.old) }
    {
        match self.next {
            Stage::Body(depth) => self.body_item(table, depth, item),
            stage => self.heading_item(table, stage, &item),
        }
    }

    /// Whether the definition is whole.
    pub fn is_whole(&self) -> bool
        ensures { result ≡ definitions.is_whole self.now }
    {
        matches!(self.next, Stage::Nothing)
    }

    /// What is defined.
    pub fn finish(self) -> Result<Defined, NoMemory>
        ensures { IfOk result (λ made. made ≡ definitions.defined self) }
    {
        let MacroReader {
            alloc,
            word,
            group: _,
            next: _,
            symbol,
            parts,
            suffixed,
            kinds,
            names: _,
            body,
        } = self;
        let value = Macro {
            params: kinds,
            body: Shared::new(alloc, body)?,
            level: level_of(word, suffixed),
        };
        Ok(Defined {
            symbol,
            parts,
            value,
        })
    }
}

/// The definition that begins with that word and goes on with these items, as they are taken off the text; their symbols
/// are the table's. It is refused exactly where one of them is with which it cannot go on, and at their end where they
/// end before it does.
pub fn read_definition(
    alloc: Global,
    word: Definition,
    group: GroupSymbols,
    items: &[Item],
    table: &Symbols<Meaning>,
) -> Result<Defined, Fault>
    requires { All (IsBelow (length table.now.names)) items.now }
    ensures { Answers result (definitions.definition_of table.now.names word group items.now) }
{
    let mut reader = MacroReader::new(alloc, word, group);
    'items: for item in items {
        reader.read(table, item.share()?)?;
    }
    if !reader.is_whole() {
        return Err(Fault::Refused(SourceError::FileEndedInText));
    }
    Ok(reader.finish()?)
}

fn first_stage(word: Definition) -> Stage
    ensures { result ≡ definitions.first_stage word }
{
    match word {
        Definition::Def | Definition::Vardef => Stage::Name,
        _ => Stage::LeftName,
    }
}

fn level_of(word: Definition, suffixed: bool) -> Level
    ensures { result ≡ definitions.level_by word suffixed }
{
    match word {
        Definition::Def => Level::Plain,
        Definition::Vardef if suffixed => Level::Suffixed,
        Definition::Vardef => Level::Variable,
        Definition::Primarydef => Level::Primary,
        Definition::Secondarydef => Level::Secondary,
        Definition::Tertiarydef => Level::Tertiary,
    }
}
