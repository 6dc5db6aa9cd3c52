//! What is kept of a pattern and of a variable.

use mp_scaled::Shared;
use mp_values::{Kind, Macro, Value};

/// What a pattern was declared to be.
#[derive(Drop)]
pub enum Declared {
    /// Variables of that type.
    Typed(Kind),
    /// A macro.
    Macro(Shared<Macro>),
}

/// A variable that has a value.
#[derive(Drop)]
pub struct Variable {
    pub value: Value,
    /// The unknowns in the value were made for this variable.
    pub made: bool,
}
