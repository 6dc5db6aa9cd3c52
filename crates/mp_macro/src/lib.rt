//! Definitions of macros: their headings and bodies, read item by item as they stand, and what a body stands for with
//! the arguments of a call in it.
//!
//! `def NAME PARAMETERS = BODY enddef` gives a symbol its macro, `vardef` a variable, and `primarydef`, `secondarydef`
//! and `tertiarydef` an operator between two operands (Hobby, A User's Manual for MetaPost, section 10, and Knuth,
//! METAFONT: The Program, parts 34 and 36).
#![tactic(auto)]

mod body;
mod defined;
mod heading;
mod laws;
mod limits;
mod reader;
mod sign;
mod stage;
mod substitution;

pub use defined::Defined;
pub use laws::{
    bodies_are_read, bodies_hold_what_is_read, headings_are_read, operator_headings_are_read,
    symbols_stay_numbered, variable_headings_are_read,
};
pub use limits::PARAMETER_LIMIT;
pub use reader::{GroupSymbols, MacroReader, read_definition};
pub use sign::Sign;
pub use stage::Stage;
pub use substitution::substitute;
