//! Lexemes: how many of the next bytes of a line belong together, and what they make.

ghost use Rattle.std.specs.Prelude.{◌≡◌, ◌↔◌, ◌≤◌, ◌<◌, [], length, position, IsNone, IfSome};
ghost use Rattle.mp_tokens.specs.Classes.{has};
ghost use Rattle.mp_tokens.specs.Reading.{IsFirst};
ghost use Rattle.mp_tokens.specs.Lexemes.{extent, run, begins, fraction_length, lexeme, number, pointed, quoted, string_kind, is_string_byte};

use crate::class::{Class, FORM_FEED, STRING_MARK, TAB};
use crate::token::BadToken;
use mp_scaled::POINT;

/// What bytes make.
#[derive(Clone, Copy, Debug)]
pub(crate) enum Kind {
    /// A symbolic token, whose name they are.
    Symbol,
    /// A number that they write in decimal.
    Number,
    /// A string, with its two marks.
    Text,
    /// No token.
    Bad(BadToken),
    /// Nothing: spaces, a comment or a lone point.
    Blank,
}

/// How many bytes belong together, and what they make.
#[derive(Clone, Copy, Debug)]
pub(crate) struct Extent {
    pub(crate) kind: Kind,
    pub(crate) length: usize,
}

impl Extent {
    fn new(kind: Kind, length: usize) -> Extent
        ensures { result ≡ extent kind length }
    {
        Extent { kind, length }
    }
}

/// The first lexeme of a line.
pub(crate) fn first_lexeme(line: &[u8]) -> Option<Extent>
    ensures none { IsNone result ↔ (line.now ≡ []) }
    ensures first { IfSome result (IsFirst line.now) }
{
    match line {
        [first, rest @ ..] => Some(lexeme(*first, rest)),
        [] => None,
    }
}

// The lexeme that a byte begins, with the bytes of its line behind it.
fn lexeme(first: u8, rest: &[u8]) -> Extent
    ensures { result ≡ lexeme first rest.now }
{
    match Class::of(first) {
        Class::Digit => number(rest),
        Class::Point => pointed(rest),
        Class::Loner => Extent::new(Kind::Symbol, 1),
        Class::StringMark => quoted(rest),
        Class::Comment => Extent::new(Kind::Blank, 1 + rest.len()),
        Class::Space => Extent::new(Kind::Blank, 1 + run(Class::Space, rest)),
        Class::Other => Extent::new(Kind::Bad(BadToken::Character(first)), 1),
        class => Extent::new(Kind::Symbol, 1 + run(class, rest)),
    }
}

// How many bytes from the front on are in the class.
fn run(class: Class, text: &[u8]) -> usize
    ensures count { result ≡ run class text.now }
    ensures within { result ≤ length text.now }
{
    for (i, c) in text.iter().enumerate() {
        if !class.has(*c) {
            return i;
        }
    }
    text.len()
}

// A digit and these bytes.
fn number(rest: &[u8]) -> Extent
    ensures { result ≡ number rest.now }
{
    let whole = run(Class::Digit, rest);
    Extent::new(Kind::Number, 1 + whole + fraction_length(&rest[whole..]))
}

fn fraction_length(text: &[u8]) -> usize
    ensures count { result ≡ fraction_length text.now }
    ensures within { result ≤ length text.now }
{
    match text {
        [POINT, rest @ ..] if begins(Class::Digit, rest) => 1 + run(Class::Digit, rest),
        _ => 0,
    }
}

fn begins(class: Class, text: &[u8]) -> bool
    ensures { result ≡ begins class text.now }
{
    match text {
        [c, ..] => class.has(*c),
        [] => false,
    }
}

// A point and these bytes.
fn pointed(rest: &[u8]) -> Extent
    ensures { result ≡ pointed rest.now }
{
    if begins(Class::Digit, rest) {
        Extent::new(Kind::Number, 1 + run(Class::Digit, rest))
    } else if begins(Class::Point, rest) {
        Extent::new(Kind::Symbol, 1 + run(Class::Point, rest))
    } else {
        Extent::new(Kind::Blank, 1)
    }
}

// The mark of a string and these bytes.
fn quoted(rest: &[u8]) -> Extent
    ensures { result ≡ quoted rest.now }
{
    match mark_index(rest) {
        Some(index) => Extent::new(string_kind(&rest[..index]), index + 2),
        None => Extent::new(Kind::Bad(BadToken::Unfinished), 1 + rest.len()),
    }
}

fn mark_index(text: &[u8]) -> Option<usize>
    ensures index { result ≡ position (has Class.StringMark) text.now }
    ensures within { IfSome result (λ index. index < length text.now) }
{
    text.iter().position(|&c| c == STRING_MARK)
}

// What the bytes between two marks make.
fn string_kind(content: &[u8]) -> Kind
    ensures { result ≡ string_kind content.now }
{
    for c in content {
        if !is_string_byte(*c) {
            return Kind::Bad(BadToken::Character(*c));
        }
    }
    Kind::Text
}

// Whether a byte may stand in a string.
fn is_string_byte(c: u8) -> bool
    ensures { result ≡ is_string_byte c }
{
    matches!(c, 32..=126 | TAB | FORM_FEED | 128..=255)
}
