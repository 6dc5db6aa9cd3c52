//! What the items of a definition are.

ghost use Rattle.std.specs.Prelude.{◌≡◌, ◌<◌, length};
ghost use Rattle.mp_macro.specs.Numbered.{IsBelow};
ghost use Rattle.mp_macro.specs.Signs as signs;

use mp_symbols::Symbols;
use mp_values::{Delimiters, Item, Meaning, Word};

/// What an item is where a definition is read.
#[derive(Clone, Copy)]
pub enum Sign {
    /// A symbol that means a word.
    Word(Word),
    /// A symbol that is a tag or an internal, and can be a part of a name.
    Part(u32),
    /// A symbol that is the left one of two delimiters.
    Left(Delimiters),
    /// A symbol that is the right one of two delimiters.
    Right(Delimiters),
    /// Any other symbol.
    Symbol,
    /// A number.
    Number,
    /// A string or a value.
    Operand,
}

fn sign_of_meaning(symbol: u32, meaning: &Meaning) -> Sign
    ensures { result ≡ signs.sign_of_meaning symbol meaning.now }
{
    match meaning {
        Meaning::Word(word) => Sign::Word(*word),
        Meaning::NewTag | Meaning::Tag(_) | Meaning::Internal(_) => Sign::Part(symbol),
        Meaning::Left(pair) => Sign::Left(*pair),
        Meaning::Right(pair) => Sign::Right(*pair),
        Meaning::Unbuilt(_) | Meaning::Macro(_) => Sign::Symbol,
    }
}

/// What a symbol of the table is.
pub(crate) fn sign_of_symbol(table: &Symbols<Meaning>, symbol: u32) -> Sign
    requires { symbol < length table.now.names }
    ensures { result ≡ signs.sign_of_symbol table.now.names symbol }
{
    sign_of_meaning(symbol, table.meaning(symbol))
}

/// What an item is.
pub(crate) fn sign_of(table: &Symbols<Meaning>, item: &Item) -> Sign
    requires { IsBelow (length table.now.names) item.now }
    ensures { result ≡ signs.sign_of table.now.names item.now }
{
    match item {
        Item::Symbol(symbol) => sign_of_symbol(table, *symbol),
        Item::Number(_) => Sign::Number,
        _ => Sign::Operand,
    }
}

/// The name of a symbol; past the table the empty one. A delimiter is asked for by the meaning of the other, and no
/// table says that the meanings in it are of its own symbols.
pub(crate) fn name_of(table: &Symbols<Meaning>, symbol: u32) -> &[u8]
    ensures { result.now ≡ signs.name_of table.now.names symbol }
{
    if table.has(symbol) {
        table.name_of(symbol)
    } else {
        &[]
    }
}

/// What an item that stood where something else was wanted is called.
pub(crate) fn stood<'a>(table: &'a Symbols<Meaning>, item: &Item) -> &'a [u8]
    requires { IsBelow (length table.now.names) item.now }
    ensures { result.now ≡ signs.stood table.now.names item.now }
{
    match item {
        Item::Symbol(symbol) => table.name_of(*symbol),
        Item::Number(_) => b"number",
        Item::Text(_) => b"string",
        _ => b"value",
    }
}
