//! What waits for more of the text: calls of macros that have not got all their arguments, and conditions.

use mp_scaled::Shared;
use mp_values::{Arguments, Condition, Delimiters, Items, Macro};

/// What an argument between delimiters is.
#[derive(Clone, Copy)]
pub enum Delimited {
    /// The value of an expression.
    Expr,
    /// The parts of a suffix.
    Suffix,
    /// Items as they stand.
    Text,
}

/// What must stand behind an argument that was asked for.
#[derive(Clone, Copy)]
pub enum Behind {
    /// A comma, or the right one of these delimiters.
    Delimiter(Delimiters),
    /// The word `of`.
    Of,
    /// Anything: it was put back, and the body comes to stand in front of it.
    Anything,
}

/// What ends a text argument.
#[derive(Clone, Copy)]
pub enum Until {
    /// The right one of these delimiters, which then is used up.
    Delimiter(Delimiters),
    /// `;`, `end` or `endgroup` outside the groups of the text, which is put back.
    Statement,
}

/// What a call needs next.
#[derive(Clone, Copy)]
pub enum Need {
    /// A left delimiter, and behind it such an argument.
    Opening(Delimited),
    /// The answer to what it asked for, and that behind it.
    Answer(Behind),
    /// More items of a text, up to that, inside so many pairs of delimiters or of groups of its own.
    Text(Until, u32),
}

/// A call of a macro, with the arguments that it has got.
#[derive(Drop)]
pub struct Call {
    pub called: Shared<Macro>,
    /// The arguments so far, with those that an operator or the macro of a variable has before its first parameter.
    pub got: Arguments,
    /// The parameter, from 0 on, whose argument is next.
    pub next: usize,
    /// The items so far of a text that is read.
    pub text: Items,
}

/// A part of the text that an open or a false condition passes over.
#[derive(Clone, Copy)]
pub enum Skip {
    /// Up to the next branch of the condition, or to its `fi`.
    ToBranch,
    /// Up to the `fi` of the condition.
    ToEnd,
}

/// The branch of an open condition that is read.
#[derive(Clone, Copy)]
pub enum Branch {
    /// That of its `if` or of an `elseif`.
    BeforeElse,
    /// That of its `else`.
    BehindElse,
}

/// What waits for more of the text.
#[derive(Drop)]
pub enum Request {
    /// A call that has not got all its arguments, and what it needs next.
    Call(Call, Need),
    /// The condition of that word, `if` or `elseif`, waits for the answer whether it is true.
    Truth(Condition),
    /// The `:` behind an `else` whose branch is to be read.
    Colon,
    /// A part of the text that is passed over, inside so many conditions of its own.
    Skip(Skip, u32),
}

/// What takes the items of the text as they stand.
#[derive(Drop)]
pub enum Reader {
    /// A call that reads a text, up to that, inside so many pairs.
    Text(Call, Until, u32),
    /// A part that is passed over, inside so many conditions.
    Skip(Skip, u32),
}

/// What needs a front of one kind.
#[derive(Drop)]
pub enum Opener {
    /// A call needs a left delimiter, and behind it such an argument.
    Argument(Call, Delimited),
    /// An `else` needs its `:`.
    Branch,
}

/// What waits for an answer.
#[derive(Drop)]
pub enum Asker {
    /// A call, for an argument, with that behind it.
    Argument(Call, Behind),
    /// A condition, for its truth, with a `:` behind it.
    Branch,
}
