//! Macros.

ghost use Rattle.std.specs.Prelude.{◌≡◌};
ghost use Rattle.mp_values.specs.Words as words;

use crate::{Definition, Items};
use mp_scaled::{Listing, Shared};

/// What a parameter of a macro takes.
#[derive(Clone, Copy)]
pub enum ParamKind {
    /// An expression between delimiters.
    Expr,
    /// A suffix between delimiters.
    Suffix,
    /// A text between delimiters.
    Text,
    /// A primary without delimiters.
    Primary,
    /// A secondary without delimiters.
    Secondary,
    /// A tertiary without delimiters.
    Tertiary,
    /// An expression without delimiters.
    BareExpr,
    /// An expression, `of` and a primary, without delimiters; it stands for two parameters.
    ExprOf,
    /// A suffix without delimiters.
    BareSuffix,
    /// A text without delimiters.
    BareText,
}

/// How a macro is called.
#[derive(Clone, Copy)]
pub enum Level {
    /// By its symbol.
    Plain,
    /// By the name of a variable.
    Variable,
    /// By the name of a variable, with the rest of the suffix as an argument.
    Suffixed,
    /// Between a primary and a secondary.
    Primary,
    /// Between a secondary and a tertiary.
    Secondary,
    /// Between a tertiary and an expression.
    Tertiary,
}

impl Level {
    /// The word that defines a macro which is called so.
    pub fn definition(self) -> Definition
        ensures { result ≡ words.definition_of self }
    {
        match self {
            Level::Plain => Definition::Def,
            Level::Variable | Level::Suffixed => Definition::Vardef,
            Level::Primary => Definition::Primarydef,
            Level::Secondary => Definition::Secondarydef,
            Level::Tertiary => Definition::Tertiarydef,
        }
    }
}

/// What the parameters of a macro take, in order.
pub type Params = Listing<ParamKind>;

/// A macro.
#[derive(Drop)]
pub struct Macro {
    pub params: Params,
    /// What a call stands for, with parameters in place of the arguments.
    pub body: Shared<Items>,
    pub level: Level,
}
