//! The table of names: what each symbol means, the internals, and what a group gives back when it ends.
//!
//! A name has one number for good, the position at which it came, and a meaning. An internal has a number of its own
//! and a value. In a group, `save` and `interim` save the old meaning or value beside the new one; the end of the
//! group undoes them, the newest first (after Knuth, METAFONT: The Program, part 16, and The METAFONTbook, chapter
//! 17).
#![tactic(auto)]

mod closed;
mod laws;
mod saved;
mod symbols;

pub use closed::Closed;
pub use laws::{groups_give_back, numbers_are_for_good};
pub use saved::Saved;
pub use symbols::Symbols;
