//! What a symbol means.

ghost use Rattle.std.specs.Prelude.{◌≡◌, IfOk};
ghost use Rattle.mp_values.specs.declared.meaning.Meaning.TheVariants.{NewTag};

use crate::{Macro, Word};
use mp_scaled::{NoMemory, Shared};
use mp_tokens::FreshMeaning;
use std::marker::Model;

/// A word of the language that is not built, which contracts see as its name.
#[derive(Drop)]
pub struct UnbuiltWord {
    name: &'static [u8],
}

impl Model for UnbuiltWord {
    ghost use Rattle.std.specs.Prelude.{List, ℕ};

    ghost Value = { List ℕ };

    ghost view = { λ word. word.name.now };
}

impl UnbuiltWord {
    /// The word of that name.
    pub fn new(name: &'static [u8]) -> UnbuiltWord
        ensures { result ≡ name.now }
    {
        UnbuiltWord { name }
    }

    /// The name of the word.
    pub fn name(&self) -> &'static [u8]
        ensures { result.now ≡ self.now }
    {
        self.name
    }
}

/// Two symbols that are a pair of delimiters.
#[derive(Clone, Copy)]
pub struct Delimiters {
    pub left: u32,
    pub right: u32,
}

/// What a symbol means.
#[derive(Drop)]
pub enum Meaning {
    /// A word that is built.
    Word(Word),
    /// A word that is not built.
    Unbuilt(UnbuiltWord),
    /// The tag of variables that were not yet named.
    NewTag,
    /// The tag of the variables with that root.
    Tag(u32),
    /// The internal of that number.
    Internal(u32),
    /// The left one of two delimiters.
    Left(Delimiters),
    /// The right one of two delimiters.
    Right(Delimiters),
    /// A macro that is called by the symbol.
    Macro(Shared<Macro>),
}

impl Meaning {
    /// The meaning once more; a macro is shared.
    pub fn share(&self) -> Result<Meaning, NoMemory>
        ensures { IfOk result (λ meaning. meaning ≡ self.now) }
    {
        match self {
            Meaning::Word(word) => Ok(Meaning::Word(*word)),
            Meaning::Unbuilt(word) => Ok(Meaning::Unbuilt(UnbuiltWord::new(word.name()))),
            Meaning::NewTag => Ok(Meaning::NewTag),
            Meaning::Tag(root) => Ok(Meaning::Tag(*root)),
            Meaning::Internal(number) => Ok(Meaning::Internal(*number)),
            Meaning::Left(pair) => Ok(Meaning::Left(*pair)),
            Meaning::Right(pair) => Ok(Meaning::Right(*pair)),
            Meaning::Macro(m) => Ok(Meaning::Macro(m.share()?)),
        }
    }
}

impl FreshMeaning for Meaning {
    ghost first = { NewTag };

    fn fresh() -> Meaning {
        Meaning::NewTag
    }
}
