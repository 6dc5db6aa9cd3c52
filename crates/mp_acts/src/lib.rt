//! What statements do: the state of a run apart from its text, and the acts that read and change it.
//!
//! The state has the symbols with their meanings, the variables with their declarations, the slots of those that are
//! no numbers and have no value, the unknowns with the equations between them, the events that made these, and the
//! lines that were shown. Each act is one public call, whose contract is the rule of the same name in specs/. `do_`
//! before a name says that the call is a statement's act, which changes the state; the other calls answer of it.
//!
//! Want of memory leaves a state as it was, but where a call says otherwise.
#![tactic(auto)]

mod definitions;
mod equations;
mod event;
mod events;
mod groups;
mod limits;
mod lines;
mod numbers;
mod operators;
mod start;
mod state;
mod suffixes;
mod table;
mod target;
mod texts;
mod tokens;
mod variables;

pub use limits::LINES_LIMIT;
pub use state::State;
pub use target::Target;
