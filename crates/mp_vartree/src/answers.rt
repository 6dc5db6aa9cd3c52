//! What the calls answer.

use mp_scaled::Shared;
use mp_values::{Macro, Value};

/// What a name stands for.
#[derive(Drop)]
pub enum Found {
    /// Nothing: no macro names a beginning of it, and the variable has no value.
    Nothing,
    /// The value of the variable.
    Value(Value),
    /// A macro, and the number of parts that name it. The others are behind its name.
    Macro(Shared<Macro>, usize),
}

/// The name is strictly below that of a macro.
#[derive(Clone, Copy, PartialEq, Eq)]
pub struct BadDeclaration;

/// The value is not of the variable's type.
#[derive(Clone, Copy, PartialEq, Eq)]
pub struct WrongType;
