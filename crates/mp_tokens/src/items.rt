//! The tokens of a file and of a string.

ghost use Rattle.std.specs.Prelude.{◌≡◌, ◌↔◌, ◌+◌, ◌-◌, ◌^◌, ◌≤◌, length, All, IsErr, IfOk, OnOk, OnErr};
ghost use Rattle.mp_tokens.specs.Items.{file_items, string_items, line_items, items_by, inner, tokens_in, with_names_of, IsNumbered, GainsSome};
ghost use Rattle.mp_tokens.specs.Reading.{Took, Fits};

use crate::fresh::FreshMeaning;
use crate::lexeme::{Kind, first_lexeme};
use crate::lines::split_line;
use crate::token::{BadToken, Token, Tokens};
use mp_scaled::{Listing, NoMemory, SharedSlice, read_decimal};
use mp_symbols::{Symbols, numbers_are_for_good};
use std::alloc::Global;

/// The tokens of a file: those of each line, and behind them its `LineEnd`.
///
/// `names` gains the names of symbols that it lacked, in the order in which they first come, each with the first
/// meaning. Want of memory, which is also answered where the numbers of lines are used up, leaves the names of
/// some first part of the file in it.
pub fn items_of_file<M: FreshMeaning + Drop>(
    alloc: Global,
    bytes: &[u8],
    names: &mut Symbols<M>,
) -> Result<Tokens, NoMemory>
    ensures tokens { IfOk result (λ tokens. tokens ≡ tokens_in names.new.names (file_items bytes.now)) }
    ensures names { OnOk result (names.new ≡ with_names_of M.first names.old (file_items bytes.now)) }
    ensures symbols { IfOk result (All (IsNumbered names.new.names)) }
    ensures length { IfOk result (λ tokens. length tokens ≤ length bytes.now + 1) }
    ensures err { OnErr result (GainsSome M.first names.old names.new (file_items bytes.now)) }
{
    numbers_are_for_good::<M>();
    let mut tokens = Listing::new(alloc);
    let mut rest = bytes;
    let mut number = 0;
    'lines: while !rest.is_empty() {
        let (line, after) = split_line(rest);
        number = next_number(number)?;
        add_line(alloc, line, names, &mut tokens)?;
        tokens.push(Token::LineEnd(number))?;
        rest = after;
    }
    Ok(tokens)
}

/// The tokens of a string: those of one line without an end.
///
/// What `names` gains is as for a file.
pub fn items_of_string<M: FreshMeaning + Drop>(
    alloc: Global,
    bytes: &[u8],
    names: &mut Symbols<M>,
) -> Result<Tokens, NoMemory>
    ensures tokens { IfOk result (λ tokens. tokens ≡ tokens_in names.new.names (string_items bytes.now)) }
    ensures names { OnOk result (names.new ≡ with_names_of M.first names.old (string_items bytes.now)) }
    ensures symbols { IfOk result (All (IsNumbered names.new.names)) }
    ensures length { IfOk result (λ tokens. length tokens ≤ length bytes.now) }
    ensures err { OnErr result (GainsSome M.first names.old names.new (string_items bytes.now)) }
{
    numbers_are_for_good::<M>();
    let mut tokens = Listing::new(alloc);
    add_line(alloc, bytes, names, &mut tokens)?;
    Ok(tokens)
}

fn next_number(number: u32) -> Result<u32, NoMemory>
    ensures next { IfOk result (λ next. next ≡ number + 1) }
    ensures last { IsErr result ↔ (number ≡ 2 ^ 32 - 1) }
{
    match number.checked_add(1) {
        Some(next) => Ok(next),
        None => Err(NoMemory),
    }
}

// Adds the tokens of a line.
fn add_line<M: FreshMeaning + Drop>(
    alloc: Global,
    line: &[u8],
    names: &mut Symbols<M>,
    tokens: &mut Tokens,
) -> Result<(), NoMemory>
    ensures ok { OnOk result (Took M.first names.old names.new tokens.old tokens.new (line_items line.now)) }
    ensures err { OnErr result (GainsSome M.first names.old names.new (line_items line.now)) }
{
    numbers_are_for_good::<M>();
    let mut rest = line;
    'lexemes: while let Some(first) = first_lexeme(rest) {
        let (text, after) = rest.split_at(first.length);
        add(alloc, first.kind, text, names, tokens)?;
        rest = after;
    }
    Ok(())
}

// Adds the token that bytes make, if any.
fn add<M: FreshMeaning + Drop>(
    alloc: Global,
    kind: Kind,
    text: &[u8],
    names: &mut Symbols<M>,
    tokens: &mut Tokens,
) -> Result<(), NoMemory>
    requires { Fits kind text.now }
    ensures ok { OnOk result (Took M.first names.old names.new tokens.old tokens.new (items_by kind text.now)) }
    ensures err { OnErr result (GainsSome M.first names.old names.new (items_by kind text.now)) }
{
    let token = match kind {
        Kind::Symbol => Token::Sym(names.number_of(text, M::fresh())?),
        Kind::Number => match read_decimal(text) {
            Ok(value) => Token::Num(value),
            Err(_) => Token::Bad(BadToken::Enormous),
        },
        Kind::Text => Token::Text(inner(alloc, text)?),
        Kind::Bad(cause) => Token::Bad(cause),
        Kind::Blank => return Ok(()),
    };
    tokens.push(token)?;
    Ok(())
}

// The bytes between the first and the last.
fn inner(alloc: Global, text: &[u8]) -> Result<SharedSlice<u8>, NoMemory>
    requires { 2 ≤ length text.now }
    ensures { IfOk result (λ content. content ≡ inner text.now) }
{
    let content = Vec::from_slice(alloc, &text[1..text.len() - 1])?;
    Ok(SharedSlice::from_vec(content)?)
}
