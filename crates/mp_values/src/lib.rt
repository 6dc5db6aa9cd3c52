//! What a run is made of: values, words and meanings, the items of a text, and why a run stops.
//!
//! A value is a number that may be a linear form of unknowns, a string, a truth, or nothing (Hobby, A User's
//! Manual for MetaPost, section 5). A symbol means a word of the language, a variable's tag, an internal or a
//! delimiter (Knuth, METAFONT: The Program, part 13).
#![tactic(auto)]

mod fault;
mod item;
mod items;
mod kinds;
mod macros;
mod meaning;
mod remaining;
mod scaled;
mod stop;
mod turn;
mod value;
mod word;

pub use fault::Fault;
pub use item::Item;
pub use items::{Arguments, Items};
pub use kinds::{has_kind, have_one_kind};
pub use macros::{Level, Macro, ParamKind, Params};
pub use meaning::{Delimiters, Meaning, UnbuiltWord};
pub use remaining::Remaining;
pub use scaled::Scaled;
pub use stop::Stop;
pub use turn::{LeftOver, Pending, Suffixes, Turn, Values};
pub use value::{Kind, Value};
pub use word::{
    CalledName, Command, Comparison, Condition, Definition, Expression, Mode, Nullary, Parameter,
    Secondary, Speech, SymbolCommand, Tertiary, Unary, Word,
};
