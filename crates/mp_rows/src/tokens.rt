ghost use Rattle.std.specs.Prelude.{All};
ghost use Rattle.mp_tokens.specs.Items.{IsNumbered};

use mp_symbols::Symbols;
use mp_tokens::{FreshMeaning, Token, Tokens, items_of_file, items_of_string};
use std::alloc::{AllocError, Global};
use std::process::Abort;

#[derive(Clone, Copy)]
enum Meaning {
    Tag,
}

impl FreshMeaning for Meaning {
    ghost use Rattle.mp_rows.specs.declared.tokens.Meaning.{Meaning};

    ghost first = { Meaning.Tag };

    fn fresh() -> Meaning {
        Meaning::Tag
    }
}

// Appends a text that was made, if memory sufficed for it.
fn add(text: &mut Vec<u8>, made: Result<String, AllocError>) -> Result<(), AllocError> {
    text.extend_from_slice(made?.as_bytes())
}

// Appends bytes with others before and after.
fn add_between(
    text: &mut Vec<u8>,
    before: &[u8],
    bytes: &[u8],
    after: &[u8],
) -> Result<(), AllocError> {
    text.extend_from_slice(before)?;
    text.extend_from_slice(bytes)?;
    text.extend_from_slice(after)
}

// Appends a token as text, with a space behind it; `|` and its number for the end of a line.
fn add_token(
    alloc: Global,
    text: &mut Vec<u8>,
    token: &Token,
    names: &Symbols<Meaning>,
) -> Result<(), AllocError>
    requires { IsNumbered names.now.names token.now }
{
    match token {
        Token::Sym(symbol) => add_between(text, b"", names.name_of(*symbol), b" "),
        Token::Num(value) => add(text, format!(in alloc; "#{value} ")),
        Token::Text(bytes) => add_between(text, b"\"", bytes.as_slice(), b"\" "),
        Token::Bad(cause) => add(text, format!(in alloc; "{cause:?} ")),
        Token::LineEnd(line) => add(text, format!(in alloc; "|{line} ")),
    }
}

// Appends tokens as text.
fn add_tokens(
    alloc: Global,
    text: &mut Vec<u8>,
    tokens: &Tokens,
    names: &Symbols<Meaning>,
) -> Result<(), AllocError>
    requires { All (IsNumbered names.now.names) tokens.now }
{
    for token in tokens.as_slice() {
        add_token(alloc, text, token, names)?;
    }
    Ok(())
}

// Appends the tokens of a file with these bytes, as text.
fn add_file(alloc: Global, text: &mut Vec<u8>, bytes: &[u8]) -> Result<(), AllocError> {
    let mut names = Symbols::new(alloc);
    match items_of_file(alloc, bytes, &mut names) {
        Ok(tokens) => add_tokens(alloc, text, &tokens, &names),
        Err(_) => Err(AllocError),
    }
}

// Appends the tokens of a string with these bytes, as text.
fn add_string(alloc: Global, text: &mut Vec<u8>, bytes: &[u8]) -> Result<(), AllocError> {
    let mut names = Symbols::new(alloc);
    match items_of_string(alloc, bytes, &mut names) {
        Ok(tokens) => add_tokens(alloc, text, &tokens, &names),
        Err(_) => Err(AllocError),
    }
}

// A file with these bytes has these tokens.
fn expect_file(
    rt: &impl Abort,
    alloc: Global,
    bytes: &[u8],
    want: &[u8],
) -> Result<(), AllocError> {
    let mut text = Vec::new(alloc);
    add_file(alloc, &mut text, bytes)?;
    assert_eq!(rt; text.as_slice(), want, "{bytes:?}");
    Ok(())
}

// Each row has the bytes of a file and its tokens.
fn expect_files(rt: &impl Abort, alloc: Global, rows: &[(&[u8], &[u8])]) -> Result<(), AllocError> {
    for (bytes, want) in rows {
        expect_file(rt, alloc, *bytes, *want)?;
    }
    Ok(())
}

#[test]
fn files_have_these_tokens(rt: HostRuntime) -> Result<(), AllocError> {
    expect_files(
        &rt,
        rt.alloc(),
        &[
            (b"", b""),
            (b"\n", b"|1 "),
            (b"a\rb\r\nc\n\rd", b"a |1 b |2 c |3 |4 d |5 "),
            (
                b"a..b...3.x 3..x[[ ;;\n",
                b"a .. b ... #196608 x #196608 .. x [[ ; ; |1 ",
            ),
            (
                b"show .1+.2, .33333333333333333999; end",
                b"show #6554 + #13107 , #21845 ; end |1 ",
            ),
            (b"32768 32767.99998", b"Enormous #2147483647 |1 "),
            (b"5.7.. 5. .", b"#373555 .. #327680 |1 "),
            (
                b"x1a_B<=:=|`'+--/*\\!?",
                b"x #65536 a_B <=:=| `' +-- /*\\ !? |1 ",
            ),
            (b"#&@$^~{}[]](,)", b"#&@$ ^~ {} [ ]] ( , ) |1 "),
            (b"a\t\x0c b%c\"d\ne", b"a b |1 e |2 "),
            (b"\"a%b\"%\"c\n", b"\"a%b\" |1 "),
            (b"\"a\nb\"\n", b"Unfinished |1 b Unfinished |2 "),
            (
                b"\"\x0c\x80\xff~\" \"\x07\x01\"",
                b"\"\x0c\x80\xff~\" Character(7) |1 ",
            ),
            (b"\"\x07", b"Unfinished |1 "),
            (b"a\x7fa\x80", b"a Character(127) a Character(128) |1 "),
            (b"%\x00\x7f", b"|1 "),
        ],
    )
}

#[test]
fn lines_end_in_these_ways(rt: HostRuntime) -> Result<(), AllocError> {
    expect_files(
        &rt,
        rt.alloc(),
        &[
            (b"ab", b"ab |1 "),
            (b"a\nb\n", b"a |1 b |2 "),
            (b"a\r\nb\r\n", b"a |1 b |2 "),
            (b"a\rb\r", b"a |1 b |2 "),
            (b"a\n\rb\n\r", b"a |1 |2 b |3 |4 "),
            (b"a\n\nb\n\n", b"a |1 |2 b |3 |4 "),
            (b"a\r\n\r\nb\r\n\r\n", b"a |1 |2 b |3 |4 "),
            (b"a\r\rb\r\r", b"a |1 |2 b |3 |4 "),
            (b"a\n\r\n\rb\n\r\n\r", b"a |1 |2 |3 b |4 |5 |6 "),
            (b"a\r\r\nb\r\r\n", b"a |1 |2 b |3 |4 "),
            (b"a\r\n\nb\r\n\n", b"a |1 |2 b |3 |4 "),
        ],
    )
}

#[test]
fn strings_have_no_lines(rt: HostRuntime) -> Result<(), AllocError> {
    let mut text = Vec::new(rt.alloc());
    add_string(rt.alloc(), &mut text, b"a b\rb")?;
    assert_eq!(rt; text.as_slice(), b"a b Character(13) b ".as_slice());
    Ok(())
}

// Appends what a byte makes that stands alone on its line, as text.
fn add_alone(alloc: Global, text: &mut Vec<u8>, c: u8) -> Result<(), AllocError> {
    match c {
        b'\n' | b'\r' | b'\t' | 12 | b' ' | b'.' | b'%' => Ok(()),
        b'0'..=b'9' => {
            let value = u32::from(c - b'0') << 16;
            add(text, format!(in alloc; "#{value} "))
        }
        b'"' => text.extend_from_slice(b"Unfinished "),
        33..=126 => text.extend_from_slice(&[c, b' ']),
        _ => add(text, format!(in alloc; "Character({c}) ")),
    }
}

// Appends what two bytes make on a line, as text; two bytes of one class are the same byte.
fn add_pair(alloc: Global, text: &mut Vec<u8>, a: u8, b: u8) -> Result<(), AllocError> {
    match (a, b) {
        (b'%', _) => Ok(()),
        (b'"', b'"') => text.extend_from_slice(b"\"\" "),
        (b'"', _) => text.extend_from_slice(b"Unfinished "),
        (b'5', b'5') => text.extend_from_slice(b"#3604480 "),
        (b'.', b'5') => text.extend_from_slice(b"#32768 "),
        (b'.', b'.') => text.extend_from_slice(b".. "),
        _ if a == b && b"a<'+/!#^{[]".contains(&a) => text.extend_from_slice(&[a, a, b' ']),
        _ => {
            add_alone(alloc, text, a)?;
            add_alone(alloc, text, b)
        }
    }
}

// A file with these bytes has the tokens that are wanted, on one line.
fn expect_line(
    rt: &impl Abort,
    alloc: Global,
    bytes: &[u8],
    want: &mut Vec<u8>,
) -> Result<(), AllocError> {
    want.extend_from_slice(b"|1 ")?;
    expect_file(rt, alloc, bytes, want.as_slice())
}

fn expect_alone(rt: &impl Abort, alloc: Global, c: u8) -> Result<(), AllocError> {
    let mut want = Vec::new(alloc);
    add_alone(alloc, &mut want, c)?;
    expect_line(rt, alloc, &[c], &mut want)
}

fn expect_pair(rt: &impl Abort, alloc: Global, a: u8, b: u8) -> Result<(), AllocError> {
    let mut want = Vec::new(alloc);
    add_pair(alloc, &mut want, a, b)?;
    expect_line(rt, alloc, &[a, b], &mut want)
}

#[test]
fn every_byte_alone(rt: HostRuntime) -> Result<(), AllocError> {
    for c in 0..=255u8 {
        expect_alone(&rt, rt.alloc(), c)?;
    }
    Ok(())
}

#[test]
fn every_class_next_to_every_other(rt: HostRuntime) -> Result<(), AllocError> {
    let one_of_each = b"a<'+/!#^{[];5.\"% \x07".as_slice();
    for a in one_of_each {
        for b in one_of_each {
            expect_pair(&rt, rt.alloc(), *a, *b)?;
        }
    }
    Ok(())
}

// Appends a piece so many times.
fn add_repeated(bytes: &mut Vec<u8>, piece: &[u8], count: usize) -> Result<(), AllocError> {
    for _ in 0..count {
        bytes.extend_from_slice(piece)?;
    }
    Ok(())
}

// Appends a piece so many times, with other bytes before and after.
fn add_long(
    bytes: &mut Vec<u8>,
    before: &[u8],
    piece: &[u8],
    count: usize,
    after: &[u8],
) -> Result<(), AllocError> {
    bytes.extend_from_slice(before)?;
    add_repeated(bytes, piece, count)?;
    bytes.extend_from_slice(after)
}

// How many tokens a file has.
fn token_count(alloc: Global, bytes: &[u8]) -> Result<usize, AllocError> {
    let mut names: Symbols<Meaning> = Symbols::new(alloc);
    match items_of_file(alloc, bytes, &mut names) {
        Ok(tokens) => Ok(tokens.as_slice().len()),
        Err(_) => Err(AllocError),
    }
}

// A file of that piece, so many times between two others, has so many tokens.
fn expect_count(
    rt: &impl Abort,
    alloc: Global,
    (before, piece, count, after): (&[u8], &[u8], usize, &[u8]),
    want: usize,
) -> Result<(), AllocError> {
    let mut bytes = Vec::new(alloc);
    add_long(&mut bytes, before, piece, count, after)?;
    let found = token_count(alloc, bytes.as_slice())?;
    assert_eq!(rt; found, want);
    Ok(())
}

// Each file has about 4 MiB: short tokens in many lines and in one, a string, a comment, and bad bytes.
#[test]
fn long_files_take_little_time(rt: HostRuntime) -> Result<(), AllocError> {
    let rows: [((&[u8], &[u8], usize, &[u8]), usize); 5] = [
        ((b"", b"a..b...3.x 3..x[[ ;;\n", 200_000, b""), 2_600_000),
        ((b"", b"a;", 2_097_152, b""), 4_194_305),
        ((b"\"", b"x", 4_194_302, b"\""), 2),
        ((b"%", b"x", 4_194_303, b""), 1),
        ((b"", b"\x07", 4_194_304, b""), 4_194_305),
    ];
    for (file, want) in rows {
        expect_count(&rt, rt.alloc(), file, want)?;
    }
    Ok(())
}
