//! Expansion: from the text that is left to the fronts that the rules of the language read.
//!
//! A text is taken item by item. A macro that is met is called: it gets its arguments, and its body comes to stand in
//! front of the text with them in place of its parameters (Knuth, METAFONT: The Program, part 25; Hobby, A User's Manual
//! for MetaPost, section 10). A condition chooses what is read, and the rest of it is passed over. What is neither a macro,
//! nor a word of a condition, nor passed over is a front.
//!
//! The expander evaluates nothing. Where a call needs the value of an expression, or the parts of a suffix, or a condition
//! its truth, it asks for it ([`Want`]), and whoever reads expressions answers ([`Answer`]); the fronts that it needs for
//! that it gets here, too. So a call may wait while others, inside its argument, are asked for and answered.
#![tactic(auto)]

mod advance;
mod answers;
mod calls;
mod conditions;
mod expander;
mod front;
mod laws;
mod limits;
mod names;
mod request;
mod requests;
mod step;
mod texts;

pub use expander::Expander;
pub use front::{Equals, Front};
pub use laws::{expansion_invents_nothing, steps_are_counted};
pub use limits::NESTING_LIMIT;
pub use request::{Behind, Branch, Call, Delimited, Need, Request, Skip, Until};
pub use step::{Answer, Operand, Step, Want};
