//! Terms of linear forms, how they are multiplied and added, and a pool that holds many lists of them.
//!
//! A term is an unknown and its coefficient. What is multiplied is rounded to the nearest unit, a half away from zero,
//! and a coefficient that comes out too small to be more than an error of rounding is dropped (after Knuth, METAFONT:
//! The Program, part 28).
#![tactic(auto)]

mod cells;
mod fits;
mod list;
mod lists;
mod merge;
mod pool;
mod ratio;
mod read;
mod room;
mod splice;

pub use list::List;
pub use pool::Pool;
pub use ratio::Ratio;
pub use read::TermsOf;

/// A term of a linear form: an unknown, and what it is multiplied by.
#[derive(Clone, Copy, Debug, PartialEq, Eq)]
pub struct Term {
    /// The number of the unknown; unknowns are counted from 1.
    pub serial: u32,
    /// What the unknown is multiplied by, in units of 2^-28.
    pub coefficient: i64,
}
