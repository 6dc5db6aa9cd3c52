//! Where a definition stands.

use mp_values::{Delimiters, ParamKind};

/// What may stand next in a definition.
#[derive(Clone, Copy)]
pub enum Stage {
    /// The symbol that is defined, or the tag of the variable that is.
    Name,
    /// A part of the name of a variable, or what may stand behind the name.
    Part,
    /// The `]` of a part that stands for any subscript.
    Bracket,
    /// A group of parameters, the parameter without delimiters, or the sign in front of the body.
    Parameters,
    /// The word for what the parameters between these delimiters take.
    GroupKind(Delimiters),
    /// The name of a parameter between delimiters.
    GroupName(ParamKind, Delimiters),
    /// A comma and one more parameter of the group, or its right delimiter.
    GroupRest(ParamKind, Delimiters),
    /// The name of the parameter without delimiters.
    BareName(ParamKind),
    /// Behind an expression without delimiters: `of`, or the sign in front of the body.
    Of,
    /// The name of the parameter behind `of`.
    OfName,
    /// The sign in front of the body.
    Equals,
    /// The name of an operator's left operand.
    LeftName,
    /// The symbol of an operator.
    Operator,
    /// The name of an operator's right operand.
    RightName,
    /// The sign in front of the body of an operator.
    OperatorEquals,
    /// An item of the body, inside so many other definitions.
    Body(u32),
    /// Nothing: the definition is whole.
    Nothing,
}
