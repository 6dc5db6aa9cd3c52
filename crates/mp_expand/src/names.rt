//! What symbols mean, and what fronts are called.

ghost use Rattle.std.specs.Prelude.{◌≡◌, unwrap_or};
ghost use Rattle.std.specs.Option.{option_map};
ghost use Rattle.mp_symbols.specs.Names.{meaning_in};
ghost use Rattle.mp_expand.specs.Fronts as fronts;

use crate::Front;
use mp_scaled::Shared;
use mp_symbols::Symbols;
use mp_values::{Level, Macro, Meaning};

/// What a symbol means; none past the table.
pub(crate) fn meaning_of(table: &Symbols<Meaning>, symbol: u32) -> Option<&Meaning>
    ensures { option_map (λ m. m.now) result ≡ meaning_in table.now.names symbol }
{
    if table.has(symbol) {
        Some(table.meaning(symbol))
    } else {
        None
    }
}

/// The name of a symbol; past the table the empty one.
pub(crate) fn name_of(table: &Symbols<Meaning>, symbol: u32) -> &[u8]
    ensures { result.now ≡ fronts.name_of table.now.names symbol }
{
    if table.has(symbol) {
        table.name_of(symbol)
    } else {
        &[]
    }
}

impl Front {
    /// What a front that stood where something else was wanted is called; a string and a value by what they are.
    pub fn stood<'a>(self, table: &'a Symbols<Meaning>) -> &'a [u8]
        ensures { result.now ≡ fronts.stood table.now.names self }
    {
        match &self {
            Front::Number(_) => b"number",
            Front::Text => b"string",
            Front::Capsule => b"value",
            Front::Word(symbol, _)
            | Front::Tag(symbol)
            | Front::Internal(symbol, _)
            | Front::Operator(symbol)
            | Front::Left(symbol, _)
            | Front::Right(symbol, _) => name_of(table, *symbol),
            Front::EndOfText => b"end of text",
        }
    }

    /// The macro that joins operands at that level, where the front is one.
    pub fn operator<'a>(
        self,
        table: &'a Symbols<Meaning>,
        level: Level,
    ) -> Option<&'a Shared<Macro>>
        ensures { option_map (λ m. m.now) result ≡ fronts.operator_in table.now.names level self }
    {
        let Front::Operator(symbol) = &self else {
            return None;
        };
        match meaning_of(table, *symbol) {
            Some(Meaning::Macro(called)) if joins_at(level, called.get().level) => Some(called),
            _ => None,
        }
    }
}

/// A macro of the one level joins operands at the other.
fn joins_at(level: Level, of: Level) -> bool
    ensures { result ≡ fronts.joins_at level of }
{
    matches!(
        (level, of),
        (Level::Primary, Level::Primary)
            | (Level::Secondary, Level::Secondary)
            | (Level::Tertiary, Level::Tertiary)
    )
}
