ghost use Rattle.mp_values.specs.Ends.{IsNoEnd};

use mp_input::{Input, NoLoop, a_second_mark_changes_nothing};
use mp_report::Place;
use mp_scaled::{Listing, Shared};
use mp_tokens::{Token, Tokens};
use mp_values::{Arguments, Item, Items, LeftOver, Pending, Turn};
use std::alloc::Global;
use std::test::Fail;

/// A call on the text that is left, and what it must answer. In a body and in an argument a digit is the parameter of
/// that number and any other byte a symbol; in a file `/` is the end of a line.
#[derive(Clone, Copy)]
enum Call {
    Text(&'static str, &'static [&'static str]),
    File(u32, &'static str),
    Item(u8),
    Turn(u32),
    /// Takes so many items: `/` is the end of a line, `.` of a file, `|` a turn, and `#` that nothing was left.
    Take(&'static str),
    EndFile,
    Leave(Result<u32, NoLoop>),
    Place(u32, u32),
}

fn item_of(byte: u8) -> Item
    ensures { IsNoEnd result }
{
    match byte {
        b'0'..=b'9' => Item::Param(byte - b'0'),
        _ => Item::Symbol(u32::from(byte)),
    }
}

fn items_of(alloc: Global, text: &[u8]) -> Result<Shared<Items>, Fail> {
    let mut items = Items::new(alloc);
    for byte in text {
        items.push(item_of(*byte))?;
    }
    Ok(Shared::new(alloc, items)?)
}

fn arguments_of(alloc: Global, texts: &[&'static str]) -> Result<Arguments, Fail> {
    let mut arguments = Arguments::new(alloc);
    for text in texts {
        arguments.push(items_of(alloc, text.as_bytes())?)?;
    }
    Ok(arguments)
}

fn tokens_of(alloc: Global, text: &[u8]) -> Result<Shared<Tokens>, Fail> {
    let mut tokens = Listing::new(alloc);
    let mut line = 0u32;
    for byte in text {
        if *byte == b'/' {
            line = line.wrapping_add(1);
            tokens.push(Token::LineEnd(line))?;
        } else {
            tokens.push(Token::Sym(u32::from(*byte)))?;
        }
    }
    Ok(Shared::new(alloc, tokens)?)
}

fn turn_of(alloc: Global, conditions: u32) -> Result<Shared<Turn>, Fail> {
    Ok(Shared::new(
        alloc,
        Turn {
            left_over: LeftOver::Forever,
            body: items_of(alloc, b"")?,
            conditions,
        },
    )?)
}

fn is_shown(taken: Option<Pending>, byte: u8) -> bool {
    match taken {
        Some(Pending::Item(Item::Symbol(symbol))) => symbol == u32::from(byte),
        Some(Pending::Item(Item::LineEnd(_))) => byte == b'/',
        Some(Pending::Item(Item::FileEnd)) => byte == b'.',
        Some(Pending::Turn(_)) => byte == b'|',
        None => byte == b'#',
        _ => false,
    }
}

fn takes(input: &mut Input, text: &[u8]) -> Result<bool, Fail> {
    for byte in text {
        if !is_shown(input.take()?, *byte) {
            return Ok(false);
        }
    }
    Ok(true)
}

/// Makes the call, and says whether it answered what it must.
fn answers(alloc: Global, input: &mut Input, call: Call) -> Result<bool, Fail> {
    input.reserve(1)?;
    match call {
        Call::Text(body, arguments) => {
            input.push_text(
                items_of(alloc, body.as_bytes())?,
                arguments_of(alloc, arguments)?,
            );
        }
        Call::File(file, tokens) => input.push_file(file, tokens_of(alloc, tokens.as_bytes())?),
        Call::Item(byte) => input.push_item(item_of(byte)),
        Call::Turn(conditions) => input.push_turn(turn_of(alloc, conditions)?),
        Call::Take(text) => return takes(input, text.as_bytes()),
        Call::EndFile => input.end_file_after_line(),
        Call::Leave(answer) => return Ok(input.leave_loop() == answer),
        Call::Place(file, line) => return Ok(input.place() == Place { file, line }),
    }
    Ok(true)
}

const CALLS: [Call; 61] = [
    // nothing
    Call::Place(0, 0),
    Call::Take("##"),
    Call::EndFile,
    Call::Leave(Err(NoLoop)),
    // bodies with arguments
    Call::Text("a0b0c", &["xy"]),
    Call::Take("axybxyc#"),
    Call::Text("01a2", &["x", "y"]),
    Call::Take("xya#"),
    Call::Text("00", &[""]),
    Call::Take("#"),
    Call::Text("1b0", &["mn", "op"]),
    Call::Take("o"),
    Call::Item(b'i'),
    Call::Text("c", &[]),
    Call::Take("cipbmn#"),
    // a file, and its places
    Call::File(1, "ab/c/d"),
    Call::Place(1, 1),
    Call::Take("ab"),
    Call::Place(1, 1),
    Call::Take("/"),
    Call::Place(1, 2),
    Call::Take("c/"),
    Call::Place(1, 2),
    Call::Text("e", &[]),
    Call::Take("ed.#"),
    Call::Place(1, 2),
    // the end of a file after its line, and a second mark on the same line
    Call::File(2, "a/b/"),
    Call::Take("a"),
    Call::File(3, "wxy/z/"),
    Call::Take("w"),
    Call::EndFile,
    Call::Take("x"),
    Call::EndFile,
    Call::Take("y"),
    Call::Place(3, 1),
    Call::Take("/."),
    Call::Place(2, 1),
    Call::Take("/b/.#"),
    // behind the last line the mark is the outer file's, and without a line it does nothing
    Call::File(4, "a/b/"),
    Call::File(5, "x"),
    Call::EndFile,
    Call::Take("x.a/.#"),
    Call::File(6, "a/b/c/"),
    Call::Take("a/"),
    Call::Text("m", &[]),
    Call::EndFile,
    Call::Take("mb/.#"),
    Call::File(7, "ab"),
    Call::EndFile,
    Call::Take("ab.#"),
    // loops
    Call::Turn(1),
    Call::Text("ab", &[]),
    Call::Turn(2),
    Call::File(8, "c/"),
    Call::Text("d", &[]),
    Call::Leave(Ok(2)),
    Call::Take("a"),
    Call::Leave(Ok(1)),
    Call::Leave(Err(NoLoop)),
    Call::Turn(3),
    Call::Take("|#"),
];

#[test]
fn calls_one_after_another(rt: HostRuntime) -> Result<(), Fail> {
    let alloc = rt.alloc();
    let mut input = Input::new(alloc);
    for (row, call) in CALLS.iter().enumerate() {
        if !answers(alloc, &mut input, *call)? {
            return Err(Fail::new(row));
        }
    }
    Ok(())
}

/// The body `ab` calls itself by its last item, so often; answers whether the room for pushes stayed.
fn keeps_room(
    alloc: Global,
    body: &Shared<Items>,
    arguments: &[&'static str],
    calls: u32,
) -> Result<bool, Fail> {
    let mut input = Input::new(alloc);
    input.reserve(1)?;
    input.push_text(body.share()?, arguments_of(alloc, arguments)?);
    let room = input.spare();
    for _ in 0..calls {
        if !takes(&mut input, b"ab")? {
            return Ok(false);
        }
        input.reserve(1)?;
        input.push_text(body.share()?, arguments_of(alloc, arguments)?);
    }
    Ok(input.spare() == room)
}

#[test]
fn calls_that_come_last(rt: HostRuntime) -> Result<(), Fail> {
    let alloc = rt.alloc();
    assert!(rt; keeps_room(alloc, &items_of(alloc, b"ab")?, &[], 100_000)?);
    // the last item of an argument, with empty arguments behind it
    assert!(rt; keeps_room(alloc, &items_of(alloc, b"a0112")?, &["b", "", ""], 100_000)?);
    Ok(())
}

// If it were copied, the text would have 10^9 items.
#[test]
fn a_long_text_is_left_at_its_first_item(rt: HostRuntime) -> Result<(), Fail> {
    let alloc = rt.alloc();
    let mut body = Items::new(alloc);
    for _ in 0..100_000 {
        body.push(Item::Param(0))?;
    }
    let mut argument = Items::new(alloc);
    for _ in 0..10_000 {
        argument.push(Item::Symbol(u32::from(b'x')))?;
    }
    let mut arguments = Arguments::new(alloc);
    arguments.push(Shared::new(alloc, argument)?)?;
    let mut input = Input::new(alloc);
    input.reserve(1)?;
    input.push_turn(turn_of(alloc, 0)?);
    input.reserve(1)?;
    input.push_text(Shared::new(alloc, body)?, arguments);
    assert!(rt; takes(&mut input, b"x")?);
    assert!(rt; input.leave_loop() == Ok(0));
    assert!(rt; takes(&mut input, b"#")?);
    Ok(())
}

// Each body has an item left, so that none takes the place of another. Then they go, the first half one by one and the
// others at once.
#[test]
fn a_high_stack(rt: HostRuntime) -> Result<(), Fail> {
    let alloc = rt.alloc();
    let body = items_of(alloc, b"a0")?;
    let mut input = Input::new(alloc);
    for _ in 0..100_000 {
        input.reserve(1)?;
        input.push_text(body.share()?, arguments_of(alloc, &["b"])?);
        assert!(rt; takes(&mut input, b"a")?);
    }
    for _ in 0..50_000 {
        assert!(rt; takes(&mut input, b"b")?);
    }
    Ok(())
}

// A mark looks at no token that lies behind it on the line.
#[test]
fn many_marks_on_one_line(rt: HostRuntime) -> Result<(), Fail> {
    let alloc = rt.alloc();
    let mut tokens = Listing::new(alloc);
    for _ in 0..200_000 {
        tokens.push(Token::Sym(u32::from(b'x')))?;
    }
    tokens.push(Token::LineEnd(1))?;
    tokens.push(Token::Sym(u32::from(b'y')))?;
    let mut input = Input::new(alloc);
    input.reserve(1)?;
    input.push_file(1, Shared::new(alloc, tokens)?);
    for _ in 0..200_000 {
        input.end_file_after_line();
        assert!(rt; takes(&mut input, b"x")?);
    }
    assert!(rt; takes(&mut input, b"/.#")?);
    Ok(())
}

#[test]
fn laws(_rt: HostRuntime) -> Result<(), Fail> {
    a_second_mark_changes_nothing();
    Ok(())
}
