//! What comes of one more item, and what is asked and answered.

use crate::Front;
use mp_scaled::{Shared, SharedSlice};
use mp_values::{Condition, Items, Value};

/// What is read for a call or a condition.
#[derive(Clone, Copy)]
pub enum Operand {
    /// The value of a primary.
    Primary,
    /// The value of a secondary.
    Secondary,
    /// The value of a tertiary.
    Tertiary,
    /// The value of an expression.
    Expression,
    /// The parts of a suffix.
    Suffix,
    /// Whether the expression behind that word, `if` or `elseif`, is true.
    Condition(Condition),
}

/// What a call or a condition asks for.
#[derive(Clone, Copy)]
pub enum Want {
    /// An operand, and the front behind it.
    Followed(Operand),
    /// An operand without delimiters, the last argument: the front behind it is put back before it is answered.
    Last(Operand),
}

/// What is answered to a call or a condition that asked.
#[derive(Drop)]
pub enum Answer {
    Value(Shared<Value>),
    /// The symbols and numbers that the suffix is.
    Suffix(Shared<Items>),
    /// The truth of a condition.
    Truth(bool),
}

/// What comes of one more item.
#[derive(Drop)]
pub enum Step {
    /// Nothing yet: the next item is to be taken.
    More,
    /// A front that is neither a string nor a value.
    Front(Front),
    /// A string.
    Text(SharedSlice<u8>),
    /// A value that stands for an expression which was evaluated.
    Capsule(Shared<Value>),
    /// A call or a condition waits for this.
    Want(Want),
}
