//! Fronts.

ghost use Rattle.std.specs.Prelude.{◌≡◌};
ghost use Rattle.mp_expand.specs.Fronts as fronts;

use mp_values::{Comparison, Delimiters, Expression, Scaled, Secondary, Tertiary, Word};

/// The first item of a text that expansion neither replaces nor passes over. A symbol keeps what it means.
#[derive(Clone, Copy)]
pub enum Front {
    /// A number; one that a suffix stands for may be negative.
    Number(Scaled),
    /// A string, whose bytes the reader has.
    Text,
    /// A value that stands for an expression which was evaluated, and which the reader has.
    Capsule,
    /// A symbol that means a word.
    Word(u32, Word),
    /// A symbol that is a tag.
    Tag(u32),
    /// A symbol that means the internal of that number.
    Internal(u32, u32),
    /// A symbol that means a macro which joins operands.
    Operator(u32),
    /// A symbol that is the left one of two delimiters.
    Left(u32, Delimiters),
    /// A symbol that is the right one of two delimiters.
    Right(u32, Delimiters),
    /// The end of the whole text.
    EndOfText,
}

/// What `=` does behind a tertiary.
#[derive(Clone, Copy)]
pub enum Equals {
    /// It compares.
    Compares,
    /// It ends the expression, as at the top of a statement.
    Ends,
}

impl Front {
    /// The operator that the front is between primaries.
    pub fn secondary(self) -> Option<Secondary>
        ensures { result ≡ fronts.secondary_in self }
    {
        match &self {
            Front::Word(_, Word::Secondary(operator)) => Some(*operator),
            _ => None,
        }
    }

    /// The operator that the front is between secondaries.
    pub fn tertiary(self) -> Option<Tertiary>
        ensures { result ≡ fronts.tertiary_in self }
    {
        match &self {
            Front::Word(_, Word::Tertiary(operator)) => Some(*operator),
            _ => None,
        }
    }

    /// The operator that the front is between tertiaries.
    pub fn joining(self, equals: Equals) -> Option<Expression>
        ensures { result ≡ fronts.joining_in equals self }
    {
        match (&self, equals) {
            (Front::Word(_, Word::Expression(operator)), _) => Some(*operator),
            (Front::Word(_, Word::Equals), Equals::Compares) => {
                Some(Expression::Compare(Comparison::Equal))
            }
            _ => None,
        }
    }

    /// Whether a primary can begin with the front.
    pub fn begins_primary(self) -> bool
        ensures { result ≡ fronts.begins_primary self }
    {
        match &self {
            Front::Number(_)
            | Front::Text
            | Front::Capsule
            | Front::Tag(_)
            | Front::Internal(_, _)
            | Front::Left(_, _) => true,
            Front::Word(_, word) => word_begins_primary(*word),
            Front::Operator(_) | Front::Right(_, _) | Front::EndOfText => false,
        }
    }

    /// Whether a number before the front is multiplied with the primary that begins with it.
    pub fn begins_factor(self) -> bool
        ensures { result ≡ fronts.begins_factor self }
    {
        match &self {
            Front::Number(_) | Front::Word(_, Word::Tertiary(_)) => false,
            _ => self.begins_primary(),
        }
    }
}

fn word_begins_primary(word: Word) -> bool
    ensures { result ≡ fronts.word_begins_primary word }
{
    match word {
        Word::Begingroup | Word::Str | Word::Nullary(_) => true,
        _ => word.unary().is_some(),
    }
}
