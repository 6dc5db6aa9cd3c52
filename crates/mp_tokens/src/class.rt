//! The classes of characters.

ghost use Rattle.std.specs.Prelude.{◌≡◌};
ghost use Rattle.mp_tokens.specs.Classes.{class_of, has};

use mp_scaled::POINT;

/// A string stands between two of these.
pub(crate) const STRING_MARK: u8 = b'"';

/// Begins a comment.
pub(crate) const COMMENT_MARK: u8 = b'%';

pub(crate) const LEFT_BRACKET: u8 = b'[';

pub(crate) const RIGHT_BRACKET: u8 = b']';

/// A space, like the blank.
pub(crate) const TAB: u8 = b'\t';

/// A space, like the blank.
pub(crate) const FORM_FEED: u8 = 12;

/// The class of a byte (Knuth, METAFONT: The Program, part 12).
#[derive(Clone, Copy, Debug)]
pub(crate) enum Class {
    Letters,
    Relations,
    Quotes,
    Signs,
    Products,
    Marks,
    Signals,
    Arrows,
    Braces,
    LeftBrackets,
    RightBrackets,
    Loner,
    Digit,
    Point,
    StringMark,
    Comment,
    Space,
    Other,
}

impl Class {
    /// The class of a byte.
    pub(crate) fn of(c: u8) -> Class
        ensures { result ≡ class_of c }
    {
        match c {
            b'A'..=b'Z' | b'_' | b'a'..=b'z' => Class::Letters,
            b'<' | b'=' | b'>' | b':' | b'|' => Class::Relations,
            b'`' | b'\'' => Class::Quotes,
            b'+' | b'-' => Class::Signs,
            b'/' | b'*' | b'\\' => Class::Products,
            b'!' | b'?' => Class::Marks,
            b'#' | b'&' | b'@' | b'$' => Class::Signals,
            b'^' | b'~' => Class::Arrows,
            b'{' | b'}' => Class::Braces,
            LEFT_BRACKET => Class::LeftBrackets,
            RIGHT_BRACKET => Class::RightBrackets,
            b',' | b';' | b'(' | b')' => Class::Loner,
            b'0'..=b'9' => Class::Digit,
            POINT => Class::Point,
            STRING_MARK => Class::StringMark,
            COMMENT_MARK => Class::Comment,
            b' ' | TAB | FORM_FEED => Class::Space,
            _ => Class::Other,
        }
    }

    /// Whether a byte is in this class, which is not the class of all others.
    pub(crate) fn has(self, c: u8) -> bool
        ensures { result ≡ has self c }
    {
        match self {
            Class::Letters => matches!(c, b'A'..=b'Z' | b'_' | b'a'..=b'z'),
            Class::Relations => matches!(c, b'<' | b'=' | b'>' | b':' | b'|'),
            Class::Quotes => matches!(c, b'`' | b'\''),
            Class::Signs => matches!(c, b'+' | b'-'),
            Class::Products => matches!(c, b'/' | b'*' | b'\\'),
            Class::Marks => matches!(c, b'!' | b'?'),
            Class::Signals => matches!(c, b'#' | b'&' | b'@' | b'$'),
            Class::Arrows => matches!(c, b'^' | b'~'),
            Class::Braces => matches!(c, b'{' | b'}'),
            Class::LeftBrackets => c == LEFT_BRACKET,
            Class::RightBrackets => c == RIGHT_BRACKET,
            Class::Loner => matches!(c, b',' | b';' | b'(' | b')'),
            Class::Digit => matches!(c, b'0'..=b'9'),
            Class::Point => c == POINT,
            Class::StringMark => c == STRING_MARK,
            Class::Comment => c == COMMENT_MARK,
            Class::Space => matches!(c, b' ' | TAB | FORM_FEED),
            Class::Other => false,
        }
    }
}
