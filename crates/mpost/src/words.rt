//! The words of the command line: `--bare`, `--steps N` and `--seed N` in any order, each at most once, and FILE.

ghost use Rattle.std.specs.Prelude.{◌≡◌, IfOk, map, unwrap_or};
ghost use Rattle.std.specs.Char.{is_ascii_digit};
ghost use Rattle.std.specs.List.{list_all};
ghost use Rattle.std.specs.String.{string_bytes};
ghost use Rattle.mp_eval.specs.Files.{is_visible};
ghost use Rattle.mpost.specs.CommandWords as words;
ghost use Rattle.mpost.specs.CommandWords.{words_of};
ghost use Rattle.mpost.specs.ReadWords.{ReadAs};

use mp_scaled::{Bytes, NoMemory};
use std::alloc::Global;

/// The steps that a run may take where the words do not say it.
pub const DEFAULT_STEPS: u32 = 10_000_000;

/// The fewest steps that the words may ask for.
pub const LEAST_STEPS: u32 = 1;

/// The most steps that they may ask for.
pub const GREATEST_STEPS: u32 = 1_000_000_000;

/// The seed of the random words where the command line does not say it.
pub const DEFAULT_SEED: u32 = 0;

/// The least seed that it may say.
pub const LEAST_SEED: u32 = 0;

/// The greatest one: seeds are below 2^28.
pub const GREATEST_SEED: u32 = 268_435_455;

/// A number on the command line has at most this many digits.
pub const LONGEST_NUMBER: usize = 10;

/// An option that has a number: the steps that a run may take, or the seed of its random words.
#[derive(Clone, Copy)]
pub enum Numbered {
    Steps,
    Seed,
}

/// An option, as its word names it.
#[derive(Clone, Copy)]
pub enum OptionWord {
    Bare,
    Numbered(Numbered),
}

/// The options that stood, with their numbers.
#[derive(Clone, Copy)]
pub struct Options {
    pub bare: bool,
    pub steps: Option<u32>,
    pub seed: Option<u32>,
}

/// What a command line says.
pub enum Command<'a> {
    /// The first word that is refused, counted from 1, or the one after the last where one is missing.
    Refused(u32),
    /// The options, and the main file as it is written.
    Accepted(Options, &'a [u8]),
}

impl Options {
    /// How many steps the run may take.
    pub fn budget(&self) -> u64
        ensures { result ≡ unwrap_or self.now.steps DEFAULT_STEPS }
    {
        u64::from(self.steps.unwrap_or(DEFAULT_STEPS))
    }

    /// The seed of its random words.
    pub fn seed(&self) -> u32
        ensures { result ≡ unwrap_or self.now.seed DEFAULT_SEED }
    {
        self.seed.unwrap_or(DEFAULT_SEED)
    }

    // The option that a word is; one that has stood before is none any more.
    fn option_of(&self, word: &str) -> Option<OptionWord>
        ensures { result ≡ words.option_of self.now word.now }
    {
        if word == "--bare" && !self.bare {
            Some(OptionWord::Bare)
        } else if word == "--steps" && self.steps.is_none() {
            Some(OptionWord::Numbered(Numbered::Steps))
        } else if word == "--seed" && self.seed.is_none() {
            Some(OptionWord::Numbered(Numbered::Seed))
        } else {
            None
        }
    }

    // These options, and one with its number.
    fn with_number(self, option: Numbered, n: u32) -> Options
        ensures { result ≡ words.with_number option n self }
    {
        match option {
            Numbered::Steps => Options {
                steps: Some(n),
                ..self
            },
            Numbered::Seed => Options {
                seed: Some(n),
                ..self
            },
        }
    }

    // The number of the word behind these options.
    fn word_behind(&self) -> u32
        ensures { result ≡ words.word_behind self.now }
    {
        let bare = if self.bare { 1 } else { 0 };
        let steps = if self.steps.is_some() { 2 } else { 0 };
        let seed = if self.seed.is_some() { 2 } else { 0 };
        1 + bare + steps + seed
    }
}

/// Reads the words behind the program's name.
pub fn read_words(words: &[String]) -> Command<'_>
    ensures { ReadAs (words_of (map string_bytes words.now)) result }
{
    let mut said = Options {
        bare: false,
        steps: None,
        seed: None,
    };
    let mut rest = words;
    'options: while let [word, more @ ..] = rest {
        match said.option_of(word.as_str()) {
            None => return file_behind(said, word.as_bytes(), more),
            Some(OptionWord::Bare) => {
                said.bare = true;
                rest = more;
            }
            Some(OptionWord::Numbered(option)) => {
                let [number, behind @ ..] = more else {
                    return Command::Refused(said.word_behind() + 1);
                };
                let Some(n) = number_of(option, number.as_str()) else {
                    return Command::Refused(said.word_behind() + 1);
                };
                said = said.with_number(option, n);
                rest = behind;
            }
        }
    }
    Command::Refused(said.word_behind())
}

// The word behind the options is the file, and the last.
fn file_behind<'a>(said: Options, file: &'a [u8], more: &[String]) -> Command<'a>
    ensures { ReadAs (words.file_behind said file.now (map string_bytes more.now)) result }
{
    if !is_file(file) || !said.bare {
        Command::Refused(said.word_behind())
    } else if more.is_empty() {
        Command::Accepted(said, file)
    } else {
        Command::Refused(said.word_behind() + 1)
    }
}

// The number of an option, where the word is one that it may have.
fn number_of(option: Numbered, word: &str) -> Option<u32>
    ensures { result ≡ words.number_of option word.now }
{
    match option {
        Numbered::Steps => number_within(LEAST_STEPS, GREATEST_STEPS, word),
        Numbered::Seed => number_within(LEAST_SEED, GREATEST_SEED, word),
    }
}

// The number that a word writes, where it lies within these bounds.
fn number_within(least: u32, greatest: u32, word: &str) -> Option<u32>
    ensures { result ≡ words.number_within least greatest word.now }
{
    if !is_number(word.as_bytes()) {
        return None;
    }
    let Ok(number) = word.parse::<u32>() else {
        return None;
    };
    if least <= number && number <= greatest {
        Some(number)
    } else {
        None
    }
}

fn is_number(word: &[u8]) -> bool
    ensures { result ≡ words.is_number word.now }
{
    1 <= word.len() && word.len() <= LONGEST_NUMBER && are_digits(word)
}

fn are_digits(word: &[u8]) -> bool
    ensures { result ≡ list_all is_ascii_digit word.now }
{
    word.iter().all(|c| c.is_ascii_digit())
}

fn is_file(word: &[u8]) -> bool
    ensures { result ≡ words.is_file word.now }
{
    match word {
        [] => false,
        [first, ..] => *first != b'-' && are_visible(word),
    }
}

fn are_visible(word: &[u8]) -> bool
    ensures { result ≡ list_all is_visible word.now }
{
    word.iter().all(|c| 33 <= *c && *c <= 126)
}

fn is_pointed(file: &[u8]) -> bool
    ensures { result ≡ words.is_pointed file.now }
{
    let mut pointed = false;
    for c in file {
        pointed = *c != b'/' && (*c == b'.' || pointed);
    }
    pointed
}

/// The name of a file: `.mp` is added where no point stands behind the last slash.
pub fn name_of_file(alloc: Global, file: &[u8]) -> Result<Bytes, NoMemory>
    ensures { IfOk result (λ name. name ≡ words.name_of_file file.now) }
{
    let mut name = Bytes::copy_of(alloc, file)?;
    if !is_pointed(file) {
        name.append(b".mp")?;
    }
    Ok(name)
}
