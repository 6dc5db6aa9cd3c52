//! The text that is left: what a run still reads.
//!
//! It is one list of items and turns of loops. A call puts the macro's body in front of it, with the arguments in
//! place of the parameters; a loop puts one turn of its body there, `input` a file, and an item may be put back
//! (Knuth, METAFONT: The Program, part 32). `endinput` and `exitif` take a part of it away.
//!
//! The list is kept as a stack of what was put in front: shared bodies with their arguments, shared tokens of files,
//! single items and turns. So putting something in front copies nothing and takes no memory, and a call that comes
//! last in a body takes the place of that body.
#![tactic(auto)]

mod entry;
mod file;
mod input;
mod laws;
mod text;

pub use input::{Input, NoLoop};
pub use laws::a_second_mark_changes_nothing;
