//! The lines of a file.

ghost use Rattle.std.specs.Prelude.{◌≡◌, ◌≢◌, ◌<◌, ◌≤◌, [], ◌∷◌, length};
ghost use Rattle.std.specs.List.{position_or_len};
ghost use Rattle.mp_tokens.specs.Lines.{lines, is_line_end, end_length};

/// Ends a line, alone or behind a carriage return.
pub(crate) const LINE_FEED: u8 = b'\n';

/// Ends a line.
pub(crate) const CARRIAGE_RETURN: u8 = b'\r';

/// The first line, and the bytes behind its end.
pub(crate) fn split_line(text: &[u8]) -> (&[u8], &[u8])
    requires { text.now ≢ [] }
    ensures lines { lines text.now ≡ result.0.now ∷ lines result.1.now }
    ensures shorter { length result.1.now < length text.now }
{
    let (line, rest) = text.split_at(line_length(text));
    (line, &rest[end_length(rest)..])
}

// How many bytes stand before the end of the first line.
fn line_length(text: &[u8]) -> usize
    ensures value { result ≡ position_or_len is_line_end text.now }
    ensures within { result ≤ length text.now }
{
    for (i, c) in text.iter().enumerate() {
        if *c == LINE_FEED || *c == CARRIAGE_RETURN {
            return i;
        }
    }
    text.len()
}

// How many bytes the end of a line takes, where one stands at the front.
fn end_length(text: &[u8]) -> usize
    ensures value { result ≡ end_length text.now }
    ensures within { result ≤ length text.now }
{
    match text {
        [] => 0,
        [CARRIAGE_RETURN, LINE_FEED, ..] => 2,
        _ => 1,
    }
}
