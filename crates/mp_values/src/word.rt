//! The words of the language that are built.

ghost use Rattle.std.specs.Prelude.{◌≡◌};
ghost use Rattle.mp_values.specs.Words as words;

use crate::Kind;

/// A word that acts on each symbol of a list.
#[derive(Clone, Copy)]
pub enum SymbolCommand {
    /// Each symbol becomes a new tag, up to the end of the group.
    Save,
    /// Each symbol becomes a new internal.
    Newinternal,
}

/// A word that says a string.
#[derive(Clone, Copy)]
pub enum Speech {
    /// As a line.
    Message,
    /// As the error that ends the run.
    Errmessage,
    /// As help, which has no effect.
    Errhelp,
}

/// A word for how a run goes on at an error, which has no effect.
#[derive(Clone, Copy)]
pub enum Mode {
    Batch,
    Scroll,
    Nonstop,
    Errorstop,
}

/// A word that begins a statement.
#[derive(Clone, Copy)]
pub enum Command {
    Show,
    Symbols(SymbolCommand),
    Interim,
    Let,
    Delimiters,
    Speech(Speech),
    Mode(Mode),
    /// Declares variables of that type.
    Type(Kind),
}

/// A word that is a primary by itself.
#[derive(Clone, Copy)]
pub enum Nullary {
    True,
    False,
    /// The name of the run's main file, without what leads to it and without its last point and what is behind that.
    Jobname,
}

/// An operator that stands before a primary.
#[derive(Clone, Copy)]
pub enum Unary {
    Plus,
    Minus,
    Not,
    /// Whether nothing in a value is open.
    Known,
    /// Whether something in a value is open.
    Unknown,
    /// Whether a value is of that type. Its word also declares variables.
    Is(Kind),
}

/// An operator that joins primaries.
#[derive(Clone, Copy)]
pub enum Secondary {
    Times,
    /// The quotient; its word is also the slash of a fraction.
    Over,
    And,
}

/// An operator that joins secondaries.
#[derive(Clone, Copy)]
pub enum Tertiary {
    Plus,
    Minus,
    Or,
}

/// How two values are compared.
#[derive(Clone, Copy)]
pub enum Comparison {
    Less,
    AtMost,
    Greater,
    AtLeast,
    Equal,
    Unequal,
}

/// An operator that joins tertiaries.
#[derive(Clone, Copy)]
pub enum Expression {
    Compare(Comparison),
    /// One string behind another.
    Concatenate,
}

/// A word of a condition.
#[derive(Clone, Copy)]
pub enum Condition {
    If,
    Elseif,
    Else,
    Fi,
}

/// A word that begins the definition of a macro.
#[derive(Clone, Copy)]
pub enum Definition {
    /// Of a symbol.
    Def,
    /// Of a variable.
    Vardef,
    /// Of an operator that joins primaries.
    Primarydef,
    /// Of an operator that joins secondaries.
    Secondarydef,
    /// Of an operator that joins tertiaries.
    Tertiarydef,
}

/// A word for what a parameter of a macro takes.
#[derive(Clone, Copy)]
pub enum Parameter {
    Primary,
    Secondary,
    Tertiary,
    Expr,
    Suffix,
    Text,
}

/// A word that stands, in the macro of a variable, for a part of the name that it is called by.
#[derive(Clone, Copy)]
pub enum CalledName {
    /// What stands before the last part.
    Before,
    /// The last part.
    Last,
    /// What stands behind the name of the macro.
    Behind,
}

/// A word of the language that is built.
#[derive(Clone, Copy)]
pub enum Word {
    Nullary(Nullary),
    /// An operator that stands before a primary, and nowhere else.
    Unary(Unary),
    Secondary(Secondary),
    /// An operator that joins secondaries. The signs can stand before a primary too.
    Tertiary(Tertiary),
    /// An operator that joins tertiaries, but for `=`.
    Expression(Expression),
    Comma,
    Semicolon,
    /// It stands behind the heading of a branch.
    Colon,
    /// It makes two sides equal where it ends an expression, and compares where it does not.
    Equals,
    Assign,
    LeftBracket,
    RightBracket,
    Str,
    Begingroup,
    Endgroup,
    End,
    Condition(Condition),
    Command(Command),
    Definition(Definition),
    Enddef,
    Parameter(Parameter),
    /// It stands between the two parameters of an operand with two parts.
    Of,
    CalledName(CalledName),
    /// Does nothing: it is passed over wherever a front is wanted.
    Backslash,
}

impl SymbolCommand {
    /// The symbol that means the word at the start of a run.
    pub fn name(self) -> &'static [u8]
        ensures { result.now ≡ words.name_of_symbol_command self }
    {
        match self {
            SymbolCommand::Save => b"save",
            SymbolCommand::Newinternal => b"newinternal",
        }
    }
}

impl Speech {
    /// The symbol that means the word at the start of a run.
    pub fn name(self) -> &'static [u8]
        ensures { result.now ≡ words.name_of_speech self }
    {
        match self {
            Speech::Message => b"message",
            Speech::Errmessage => b"errmessage",
            Speech::Errhelp => b"errhelp",
        }
    }
}

impl Mode {
    /// The symbol that means the word at the start of a run.
    pub fn name(self) -> &'static [u8]
        ensures { result.now ≡ words.name_of_mode self }
    {
        match self {
            Mode::Batch => b"batchmode",
            Mode::Scroll => b"scrollmode",
            Mode::Nonstop => b"nonstopmode",
            Mode::Errorstop => b"errorstopmode",
        }
    }
}

impl Command {
    /// The symbol that means the word at the start of a run.
    pub fn name(self) -> &'static [u8]
        ensures { result.now ≡ words.name_of_command self }
    {
        match self {
            Command::Show => b"show",
            Command::Symbols(command) => command.name(),
            Command::Interim => b"interim",
            Command::Let => b"let",
            Command::Delimiters => b"delimiters",
            Command::Speech(speech) => speech.name(),
            Command::Mode(mode) => mode.name(),
            Command::Type(kind) => kind.name(),
        }
    }
}

impl Definition {
    /// The symbol that means the word at the start of a run.
    pub fn name(self) -> &'static [u8]
        ensures { result.now ≡ words.name_of_definition self }
    {
        match self {
            Definition::Def => b"def",
            Definition::Vardef => b"vardef",
            Definition::Primarydef => b"primarydef",
            Definition::Secondarydef => b"secondarydef",
            Definition::Tertiarydef => b"tertiarydef",
        }
    }
}

impl Parameter {
    /// The symbol that means the word at the start of a run.
    pub fn name(self) -> &'static [u8]
        ensures { result.now ≡ words.name_of_parameter self }
    {
        match self {
            Parameter::Primary => b"primary",
            Parameter::Secondary => b"secondary",
            Parameter::Tertiary => b"tertiary",
            Parameter::Expr => b"expr",
            Parameter::Suffix => b"suffix",
            Parameter::Text => b"text",
        }
    }
}

impl CalledName {
    /// The symbol that means the word at the start of a run.
    pub fn name(self) -> &'static [u8]
        ensures { result.now ≡ words.name_of_called_name self }
    {
        match self {
            CalledName::Before => b"#@",
            CalledName::Last => b"@",
            CalledName::Behind => b"@#",
        }
    }
}

impl Nullary {
    /// The symbol that means the word at the start of a run.
    pub fn name(self) -> &'static [u8]
        ensures { result.now ≡ words.name_of_nullary self }
    {
        match self {
            Nullary::True => b"true",
            Nullary::False => b"false",
            Nullary::Jobname => b"jobname",
        }
    }
}

impl Unary {
    /// The symbol that means the operator at the start of a run.
    pub fn name(self) -> &'static [u8]
        ensures { result.now ≡ words.name_of_unary self }
    {
        match self {
            Unary::Plus => b"+",
            Unary::Minus => b"-",
            Unary::Not => b"not",
            Unary::Known => b"known",
            Unary::Unknown => b"unknown",
            Unary::Is(kind) => kind.name(),
        }
    }
}

impl Secondary {
    /// The symbol that means the operator at the start of a run.
    pub fn name(self) -> &'static [u8]
        ensures { result.now ≡ words.name_of_secondary self }
    {
        match self {
            Secondary::Times => b"*",
            Secondary::Over => b"/",
            Secondary::And => b"and",
        }
    }
}

impl Tertiary {
    /// The symbol that means the operator at the start of a run.
    pub fn name(self) -> &'static [u8]
        ensures { result.now ≡ words.name_of_tertiary self }
    {
        match self {
            Tertiary::Plus => b"+",
            Tertiary::Minus => b"-",
            Tertiary::Or => b"or",
        }
    }
}

impl Comparison {
    /// The symbol that means the operator at the start of a run.
    pub fn name(self) -> &'static [u8]
        ensures { result.now ≡ words.name_of_comparison self }
    {
        match self {
            Comparison::Less => b"<",
            Comparison::AtMost => b"<=",
            Comparison::Greater => b">",
            Comparison::AtLeast => b">=",
            Comparison::Equal => b"=",
            Comparison::Unequal => b"<>",
        }
    }
}

impl Expression {
    /// The symbol that means the operator at the start of a run.
    pub fn name(self) -> &'static [u8]
        ensures { result.now ≡ words.name_of_expression self }
    {
        match self {
            Expression::Compare(comparison) => comparison.name(),
            Expression::Concatenate => b"&",
        }
    }
}

impl Condition {
    /// The symbol that means the word at the start of a run.
    pub fn name(self) -> &'static [u8]
        ensures { result.now ≡ words.name_of_condition self }
    {
        match self {
            Condition::If => b"if",
            Condition::Elseif => b"elseif",
            Condition::Else => b"else",
            Condition::Fi => b"fi",
        }
    }
}

impl Word {
    /// Each word once, in the order in which they get their numbers.
    pub const ALL: [Word; 66] = [
        Word::Begingroup,
        Word::Endgroup,
        Word::Tertiary(Tertiary::Plus),
        Word::Tertiary(Tertiary::Minus),
        Word::Secondary(Secondary::Times),
        Word::Secondary(Secondary::Over),
        Word::Comma,
        Word::Semicolon,
        Word::Equals,
        Word::Assign,
        Word::LeftBracket,
        Word::RightBracket,
        Word::Str,
        Word::End,
        Word::Command(Command::Show),
        Word::Command(Command::Symbols(SymbolCommand::Save)),
        Word::Command(Command::Interim),
        Word::Command(Command::Let),
        Word::Command(Command::Delimiters),
        Word::Command(Command::Symbols(SymbolCommand::Newinternal)),
        Word::Command(Command::Speech(Speech::Message)),
        Word::Command(Command::Speech(Speech::Errmessage)),
        Word::Command(Command::Speech(Speech::Errhelp)),
        Word::Command(Command::Mode(Mode::Batch)),
        Word::Command(Command::Mode(Mode::Scroll)),
        Word::Command(Command::Mode(Mode::Nonstop)),
        Word::Command(Command::Mode(Mode::Errorstop)),
        Word::Command(Command::Type(Kind::Boolean)),
        Word::Command(Command::Type(Kind::Numeric)),
        Word::Command(Command::Type(Kind::Text)),
        Word::Definition(Definition::Def),
        Word::Definition(Definition::Vardef),
        Word::Definition(Definition::Primarydef),
        Word::Definition(Definition::Secondarydef),
        Word::Definition(Definition::Tertiarydef),
        Word::Enddef,
        Word::Parameter(Parameter::Primary),
        Word::Parameter(Parameter::Secondary),
        Word::Parameter(Parameter::Tertiary),
        Word::Parameter(Parameter::Expr),
        Word::Parameter(Parameter::Suffix),
        Word::Parameter(Parameter::Text),
        Word::Of,
        Word::CalledName(CalledName::Before),
        Word::CalledName(CalledName::Last),
        Word::CalledName(CalledName::Behind),
        Word::Backslash,
        Word::Nullary(Nullary::True),
        Word::Nullary(Nullary::False),
        Word::Nullary(Nullary::Jobname),
        Word::Unary(Unary::Not),
        Word::Unary(Unary::Known),
        Word::Unary(Unary::Unknown),
        Word::Secondary(Secondary::And),
        Word::Tertiary(Tertiary::Or),
        Word::Expression(Expression::Compare(Comparison::Less)),
        Word::Expression(Expression::Compare(Comparison::AtMost)),
        Word::Expression(Expression::Compare(Comparison::Greater)),
        Word::Expression(Expression::Compare(Comparison::AtLeast)),
        Word::Expression(Expression::Compare(Comparison::Unequal)),
        Word::Expression(Expression::Concatenate),
        Word::Colon,
        Word::Condition(Condition::If),
        Word::Condition(Condition::Elseif),
        Word::Condition(Condition::Else),
        Word::Condition(Condition::Fi),
    ];

    /// The symbol that means the word at the start of a run.
    pub fn name(self) -> &'static [u8]
        ensures { result.now ≡ words.name_of_word self }
    {
        match self {
            Word::Nullary(word) => word.name(),
            Word::Unary(operator) => operator.name(),
            Word::Secondary(operator) => operator.name(),
            Word::Tertiary(operator) => operator.name(),
            Word::Expression(operator) => operator.name(),
            Word::Comma => b",",
            Word::Semicolon => b";",
            Word::Colon => b":",
            Word::Equals => b"=",
            Word::Assign => b":=",
            Word::LeftBracket => b"[",
            Word::RightBracket => b"]",
            Word::Str => b"str",
            Word::Begingroup => b"begingroup",
            Word::Endgroup => b"endgroup",
            Word::End => b"end",
            Word::Condition(word) => word.name(),
            Word::Command(command) => command.name(),
            Word::Definition(definition) => definition.name(),
            Word::Enddef => b"enddef",
            Word::Parameter(parameter) => parameter.name(),
            Word::Of => b"of",
            Word::CalledName(part) => part.name(),
            Word::Backslash => b"\\",
        }
    }

    /// The operator that the word is before a primary, if it is one.
    pub fn unary(self) -> Option<Unary>
        ensures { result ≡ words.unary_of self }
    {
        match self {
            Word::Unary(operator) => Some(operator),
            Word::Tertiary(Tertiary::Plus) => Some(Unary::Plus),
            Word::Tertiary(Tertiary::Minus) => Some(Unary::Minus),
            Word::Command(Command::Type(kind)) => Some(Unary::Is(kind)),
            _ => None,
        }
    }
}
