//! Variables: their full names, their types, and their values.
//!
//! A variable's full name is a root, which stands for its tag, and parts, which are symbols and subscripts. A
//! declaration speaks of all names of a pattern, which has one collective part in place of each subscript, and gives
//! them a type or a macro (Knuth, The METAFONTbook, chapter 7, and METAFONT: The Program, part 15).
#![tactic(auto)]

mod answers;
mod declarations;
mod entry;
mod group;
mod laws;
mod name_map;
mod names;
mod pattern_tree;
mod serials;
mod shapes;
mod tag;
mod vars;

pub use answers::{BadDeclaration, Found, WrongType};
pub use entry::Variable;
pub use laws::{one_pattern_matches, variables_are_a_map};
pub use names::{PART_LIMIT, Part, Pattern, Shape, Suffix};
pub use serials::Serials;
pub use vars::Vars;
