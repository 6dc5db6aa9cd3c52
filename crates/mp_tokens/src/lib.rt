//! Tokens: how the bytes of a file or of a string become a list of tokens.
//!
//! A file is cut into lines, and a line into lexemes, each the longest that the classes of characters allow
//! (after Knuth, METAFONT: The Program, parts 12 and 33, and The METAFONTbook, chapter 6). A run of characters of one
//! class is a symbol, but `,`, `;`, `(` and `)` stand alone; digits may have a point with digits behind it; a string ends
//! on its line; `%` drops the rest of the line. The ends of lines, and bytes that make no token, are tokens too.
//!
//! A symbol is kept by the number of its name in a table of names (`mp_symbols`), which gains the names that it
//! lacked, each with a first meaning.
#![tactic(auto)]

mod class;
mod fresh;
mod items;
mod lexeme;
mod lines;
mod token;

pub use fresh::FreshMeaning;
pub use items::{items_of_file, items_of_string};
pub use token::{BadToken, Token, Tokens};
