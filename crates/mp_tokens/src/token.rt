//! What a text is made of.

use mp_scaled::{Listing, SharedSlice};

/// Bytes that make no token. They stand in the list of tokens like any other; their error comes when they are
/// taken.
#[derive(Clone, Copy, Debug, PartialEq, Eq)]
pub enum BadToken {
    /// A byte that may not stand where it stands.
    Character(u8),
    /// A string without an end on its line.
    Unfinished,
    /// A number of 32768 or more.
    Enormous,
}

/// A token of a file or of a string.
#[derive(Debug, Drop)]
pub enum Token {
    /// A symbol, by the number of its name.
    Sym(u32),
    /// A number that is not negative, in units of 2^-16.
    Num(i32),
    /// A string, by its bytes between the quotation marks.
    Text(SharedSlice<u8>),
    /// Bytes that make no token.
    Bad(BadToken),
    /// The end of a line of a file. Lines count from 1.
    LineEnd(u32),
}

/// Tokens in their order.
pub type Tokens = Listing<Token>;
