//! The parts of names and of patterns.

use mp_scaled::Listing;

/// A name may have so many parts behind its tag.
pub const PART_LIMIT: u32 = 50;

/// A part of a full name.
#[derive(Clone, Copy, PartialEq, Eq, PartialOrd, Ord)]
pub enum Part {
    /// A symbol, by its number.
    Sym(u32),
    /// A subscript, in units of 2^-16.
    Sub(i32),
}

/// A part of a pattern.
#[derive(Clone, Copy, PartialEq, Eq, PartialOrd, Ord)]
pub enum Shape {
    /// That symbol.
    Sym(u32),
    /// Any subscript.
    Any,
}

/// The parts of a name behind its tag.
pub type Suffix = Listing<Part>;

/// The parts of a pattern behind its tag.
pub type Pattern = Listing<Shape>;
