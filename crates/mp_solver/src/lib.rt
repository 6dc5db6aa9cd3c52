//! Unknowns and the linear equations between them.
//!
//! An unknown is independent, or it equals a linear form of independent ones. An equation, brought up to date,
//! makes one of its unknowns dependent: the pivot, whose term has the greatest magnitude. Its new form then
//! replaces it in every other form, so that the system is solved at any time (after Knuth, METAFONT: The
//! Program, part 28). The forms that hold an unknown are listed for it, so that an equation looks at
//! those that hold its pivot and at no others.
#![tactic(auto)]

mod equated;
mod exact;
mod forms;
mod fresh;
mod limits;
mod replay;
mod rewriting;
mod rows;
mod solution;
mod state;
mod system;
mod tally;
mod view;

pub use equated::Equated;
pub use exact::exact_lists_are_solved;
pub use fresh::Fresh;
pub use limits::{TERM_LIMIT, UNKNOWN_LIMIT};
pub use replay::{replays_go_on, systems_are_replays};
pub use state::State;
pub use system::{Ready, System};
pub use view::{FormView, Terms};
