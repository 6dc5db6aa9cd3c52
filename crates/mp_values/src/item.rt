//! The items of a text.

ghost use Rattle.std.specs.Prelude.{◌≡◌, IfOk};
ghost use Rattle.mp_values.specs.Items.{item_of};

use crate::{Scaled, Value};
use mp_report::Place;
use mp_scaled::{NoMemory, Shared, SharedSlice};
use mp_tokens::{BadToken, Token};

/// A piece of a text.
#[derive(Drop)]
pub enum Item {
    /// The symbol of that number in the table of names.
    Symbol(u32),
    /// A number; that of a subscript may be negative.
    Number(Scaled),
    /// A string, by its bytes.
    Text(SharedSlice<u8>),
    /// Bytes that make no token.
    Bad(BadToken),
    /// A value that stands for an expression which was evaluated.
    Capsule(Shared<Value>),
    /// A parameter of the body that the item stands in: the argument of that number, from 0 on.
    Param(u8),
    /// The end of a line.
    LineEnd(Place),
    /// The end of a file.
    FileEnd,
    /// The end of the whole text.
    EndOfText,
}

impl Item {
    /// A token of that file as an item; a string is shared.
    pub fn of(file: u32, token: &Token) -> Result<Item, NoMemory>
        ensures { IfOk result (λ item. item ≡ item_of file token.now) }
    {
        match token {
            Token::Sym(symbol) => Ok(Item::Symbol(*symbol)),
            Token::Num(value) => Ok(Item::Number(Scaled::new(*value))),
            Token::Text(bytes) => Ok(Item::Text(bytes.share()?)),
            Token::Bad(cause) => Ok(Item::Bad(*cause)),
            Token::LineEnd(line) => Ok(Item::LineEnd(Place { file, line: *line })),
        }
    }

    /// The item once more; a string and a value are shared.
    pub fn share(&self) -> Result<Item, NoMemory>
        ensures { IfOk result (λ item. item ≡ self.now) }
    {
        match self {
            Item::Symbol(symbol) => Ok(Item::Symbol(*symbol)),
            Item::Number(value) => Ok(Item::Number(*value)),
            Item::Text(bytes) => Ok(Item::Text(bytes.share()?)),
            Item::Bad(cause) => Ok(Item::Bad(*cause)),
            Item::Capsule(value) => Ok(Item::Capsule(value.share()?)),
            Item::Param(number) => Ok(Item::Param(*number)),
            Item::LineEnd(place) => Ok(Item::LineEnd(*place)),
            Item::FileEnd => Ok(Item::FileEnd),
            Item::EndOfText => Ok(Item::EndOfText),
        }
    }
}
