//! The errors that a source can end by.

use mp_scaled::Bytes;

/// What has a limit.
#[derive(Clone, Copy, Debug, PartialEq, Eq)]
pub enum Cap {
    /// Primaries, operands of expansions and uses of `expandafter` inside one another.
    Nesting,
    /// Source files.
    Sources,
    /// The bytes of all source files.
    SourceBytes,
    /// The bytes of a string.
    Text,
    /// The knots of a path.
    Knots,
    /// The items of a picture.
    Items,
    /// The knots of all paths of a picture.
    PictureKnots,
    /// The parts of a suffix.
    Suffix,
    /// The parameters of a macro.
    Params,
    /// The unknowns of a run.
    Unknowns,
    /// The terms of all dependency lists.
    Terms,
    /// The figures of a run.
    Figures,
    /// The bytes of all figures.
    FigureBytes,
    /// The bytes of all lines.
    Lines,
}

/// What a run of a source can end by. Each error has a number, counted from 1 in this order.
///
/// An operator, a word, a reason or a name that it carries has the spelling of the language.
#[derive(Debug, Drop)]
pub enum SourceError {
    /// A byte that begins no token.
    BadCharacter(u32),
    /// A string that its line does not end.
    UnfinishedString,
    /// A number token of 32768 or more.
    EnormousNumber,
    /// A file or a font of that name is absent, or can be none.
    NoSuchFile(Bytes),
    /// The file of that name has too many bytes.
    FileTooLong(Bytes),
    /// A file ended while a text was read or passed over.
    FileEndedInText,
    /// What was wanted, and what stood in its place.
    Unexpected(Bytes, Bytes),
    /// The operator or word was given a value of a type that it does not allow.
    WrongType(Bytes),
    /// The operator or word needs a known value.
    NotKnown(Bytes),
    /// A result of magnitude 2^31 units or more.
    Overflow,
    /// A division by 0.
    DivisionByZero,
    /// The operator has no result at its operands.
    OutOfDomain(Bytes),
    /// An equation between known values that differ; the residual in units of 2^-16.
    Inconsistent(i32),
    /// A coefficient that is too large for a dependency list.
    CoefficientTooLarge,
    /// An argument of a macro or a statement is missing, in excess or refused.
    BadArguments,
    /// `elseif`, `else` or `fi` with no open condition that it may stand in.
    LoneConditionWord,
    /// `endfor`, or an `exitif` that holds, outside any loop.
    NoLoop,
    /// `endgroup` outside any group.
    LoneEndgroup,
    /// A subscript that is no known number.
    BadSubscript,
    /// A declared name with a number or a filled bracket in it, or below the name of a `vardef`.
    BadDeclaration,
    /// A path that cannot be made: `Tension`, `Curl`, `Touch` or `NotCycle`.
    BadPath(Bytes),
    /// `makepen`, or a pen that is flat and no point.
    PolygonalPen,
    /// `btex` or `verbatimtex`.
    TeXBlock,
    /// The font of that name has bad metrics: `Short`, `BadCounts`, `BadIndex` or `BadDimension`.
    BadFont(Bytes, Bytes),
    /// The font of that name has no character of that code.
    MissingCharacter(Bytes, u32),
    /// A picture that makes no dash pattern.
    BadDash,
    /// The text of an `errmessage`.
    UserError(Bytes),
    /// More of these than the number that is allowed.
    Limit(Cap, u32),
    /// A word of the language that is not built, or a form of the language or a size that is not.
    NotBuilt(Bytes),
}
