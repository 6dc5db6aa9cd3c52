//! Rows of `mp_expand`: what fronts a text gives, and how it stops.

use mp_expand::{Answer, Expander, Front, Operand, Step, Want};
use mp_report::{Cap, SourceError};
use mp_scaled::{Listing, NoMemory, Shared};
use mp_symbols::Symbols;
use mp_tokens::{Token, Tokens};
use mp_values::{
    Arguments, Delimiters, Item, Items, Level, Macro, Meaning, ParamKind, Pending, Stop, Value,
    Word,
};
use std::alloc::Global;
use std::test::Fail;

/// How the reading of a text ends.
#[derive(Clone, Copy)]
enum End {
    Whole,
    BadArguments,
    Unexpected,
    FileEndedInText,
    NestingLimit,
    OutOfSteps,
}

/// A text of the symbols of the table, the fronts that it gives, and its end. A capsule is `value`.
type Row = (&'static str, &'static str, End);

/// Names of one byte, in the order of the table.
fn symbol_of(byte: u8) -> u32 {
    match byte {
        b'(' => 0,
        b')' => 1,
        b',' => 2,
        b'\\' => 3,
        b'a' => 4,
        b'b' => 5,
        b'z' => 6,
        b'g' => 7,
        b'f' => 8,
        b'p' => 10,
        b'h' => 11,
        b's' => 12,
        b'e' => 13,
        b'j' => 14,
        b';' => 15,
        b'{' => 16,
        b'}' => 17,
        b'o' => 18,
        _ => 9,
    }
}

/// A body in which a digit is the parameter of that number and any other byte a symbol.
fn body_of(alloc: Global, text: &[u8]) -> Result<Shared<Items>, NoMemory> {
    let mut items = Items::new(alloc);
    'bytes: for byte in text {
        match *byte {
            b'0'..=b'9' => items.push(Item::Param(*byte - b'0'))?,
            _ => items.push(Item::Symbol(symbol_of(*byte)))?,
        }
    }
    Shared::new(alloc, items)
}

fn macro_of(
    alloc: Global,
    kinds: &[ParamKind],
    level: Level,
    body: &[u8],
) -> Result<Shared<Macro>, NoMemory> {
    let mut params = Listing::new(alloc);
    'kinds: for kind in kinds {
        params.push(*kind)?;
    }
    let body = body_of(alloc, body)?;
    Shared::new(
        alloc,
        Macro {
            params,
            body,
            level,
        },
    )
}

/// Two delimiters, a comma, a backslash and two tags; `z` that stands for `a`, `g(expr x)` for x, `f(expr x, suffix y)` for
/// y x y, and `t(text u)` for u b u; without delimiters `p primary x` for x b, `h suffix x` for b x, `s text u` for u b u and
/// `e expr x of y` for y b x; an operator `j`; the words `;`, `begingroup`, `endgroup` and `of`.
fn table_of(alloc: Global) -> Result<Symbols<Meaning>, NoMemory> {
    let pair = Delimiters { left: 0, right: 1 };
    let z = macro_of(alloc, &[], Level::Plain, b"a")?;
    let g = macro_of(alloc, &[ParamKind::Expr], Level::Plain, b"0")?;
    let f = macro_of(
        alloc,
        &[ParamKind::Expr, ParamKind::Suffix],
        Level::Plain,
        b"101",
    )?;
    let t = macro_of(alloc, &[ParamKind::Text], Level::Plain, b"0b0")?;
    let mut table = Symbols::new(alloc);
    table.number_of(b"(", Meaning::Left(pair))?;
    table.number_of(b")", Meaning::Right(pair))?;
    table.number_of(b",", Meaning::Word(Word::Comma))?;
    table.number_of(b"\\", Meaning::Word(Word::Backslash))?;
    table.number_of(b"a", Meaning::NewTag)?;
    table.number_of(b"b", Meaning::NewTag)?;
    table.number_of(b"z", Meaning::Macro(z))?;
    table.number_of(b"g", Meaning::Macro(g))?;
    table.number_of(b"f", Meaning::Macro(f))?;
    table.number_of(b"t", Meaning::Macro(t))?;
    let bare = [
        (b"p", ParamKind::Primary, b"0b "),
        (b"h", ParamKind::BareSuffix, b"b0 "),
        (b"s", ParamKind::BareText, b"0b0"),
        (b"e", ParamKind::ExprOf, b"1b0"),
    ];
    'macros: for (name, kind, body) in bare {
        let called = macro_of(alloc, &[kind], Level::Plain, body.trim_ascii_end())?;
        table.number_of(name, Meaning::Macro(called))?;
    }
    table.number_of(
        b"j",
        Meaning::Macro(macro_of(alloc, &[], Level::Primary, b"01")?),
    )?;
    let words = [
        (b";", Word::Semicolon),
        (b"{", Word::Begingroup),
        (b"}", Word::Endgroup),
        (b"o", Word::Of),
    ];
    'words: for (name, word) in words {
        table.number_of(name, Meaning::Word(word))?;
    }
    Ok(table)
}

fn tokens_of(alloc: Global, text: &[u8]) -> Result<Shared<Tokens>, NoMemory> {
    let mut tokens = Listing::new(alloc);
    'bytes: for byte in text {
        tokens.push(Token::Sym(symbol_of(*byte)))?;
    }
    tokens.push(Token::LineEnd(1))?;
    Shared::new(alloc, tokens)
}

/// What a call asked for, with the front that was read for it, if one was.
#[derive(Clone, Copy)]
struct Asked {
    want: Want,
    argument: Option<Front>,
}

/// A reader to which each front is a whole expression, and a suffix.
#[derive(Drop)]
struct Reader {
    asked: Vec<Asked>,
    shown: Vec<u8>,
}

/// A step, as far as the reader minds.
#[derive(Clone, Copy)]
enum Shown {
    Nothing,
    Want(Want),
    Front(Front),
}

fn read_as(step: Step) -> Shown {
    match step {
        Step::More => Shown::Nothing,
        Step::Want(want) => Shown::Want(want),
        Step::Front(front) => Shown::Front(front),
        Step::Text(_) => Shown::Front(Front::Text),
        Step::Capsule(_) => Shown::Front(Front::Capsule),
    }
}

/// The answer to what was asked: any value, or the symbol of the front.
fn answer_to(alloc: Global, operand: Operand, front: Front) -> Result<Answer, NoMemory> {
    if let Operand::Suffix = operand {
        let mut items = Items::new(alloc);
        if let Front::Tag(symbol) = front {
            items.push(Item::Symbol(symbol))?;
        }
        return Ok(Answer::Suffix(Shared::new(alloc, items)?));
    }
    Ok(Answer::Value(Shared::new(alloc, Value::Boolean(true))?))
}

/// Answers what was asked, with the front behind it, or puts that back before.
fn answer(
    alloc: Global,
    expander: &mut Expander,
    table: &Symbols<Meaning>,
    want: Want,
    argument: Front,
    front: Front,
) -> Result<Step, Stop> {
    match want {
        Want::Followed(operand) => expander.answer(
            table,
            answer_to(alloc, operand, argument)?,
            front,
        ),
        Want::Last(operand) => {
            if let Front::Tag(symbol) | Front::Word(symbol, _) = front {
                expander.put_back(Item::Symbol(symbol))?;
            }
            expander.answer(
                table,
                answer_to(alloc, operand, argument)?,
                Front::EndOfText,
            )
        }
    }
}

impl Reader {
    /// Something is asked for.
    fn ask(&mut self, want: Want) -> Result<(), Stop> {
        match self.asked.push(Asked {
            want,
            argument: None,
        }) {
            Ok(()) => Ok(()),
            Err(_) => Err(Stop::NoMemory),
        }
    }

    /// One more front: of the text, an argument, or what stands behind one.
    fn read(
        &mut self,
        alloc: Global,
        expander: &mut Expander,
        table: &Symbols<Meaning>,
        front: Front,
    ) -> Result<(), Stop> {
        match self.asked.pop() {
            None => match self.shown.extend_from_slice(front.stood(table)) {
                Ok(()) => Ok(()),
                Err(_) => Err(Stop::NoMemory),
            },
            Some(
                Asked {
                    want,
                    argument: None,
                },
            ) => match self.asked.push(Asked {
                want,
                argument: Some(front),
            }) {
                Ok(()) => Ok(()),
                Err(_) => Err(Stop::NoMemory),
            },
            Some(
                Asked {
                    want,
                    argument: Some(argument),
                },
            ) => {
                match answer(alloc, expander, table, want, argument, front)? {
                    Step::Want(want) => self.ask(want),
                    _ => Ok(()),
                }
            }
        }
    }

    /// Reads to the end of the text.
    fn read_all(
        &mut self,
        alloc: Global,
        expander: &mut Expander,
        table: &Symbols<Meaning>,
    ) -> Result<(), Stop> {
        'steps: for _ in 0..1000u32 {
            let front = match read_as(expander.next(table)?) {
                Shown::Nothing => continue,
                Shown::Want(want) => {
                    self.ask(want)?;
                    continue;
                }
                Shown::Front(front) => front,
            };
            if matches!(front, Front::EndOfText) && self.asked.is_empty() {
                return Ok(());
            }
            self.read(alloc, expander, table, front)?;
        }
        Ok(())
    }
}

fn is_end(reached: &Result<(), Stop>, end: End) -> bool {
    match end {
        End::Whole => matches!(reached, Ok(())),
        End::BadArguments => matches!(reached, Err(Stop::Refused(SourceError::BadArguments))),
        End::Unexpected => matches!(reached, Err(Stop::Refused(SourceError::Unexpected(_, _)))),
        End::FileEndedInText => matches!(reached, Err(Stop::Refused(SourceError::FileEndedInText))),
        End::NestingLimit => matches!(
            reached,
            Err(Stop::Refused(SourceError::Limit(Cap::Nesting, 100)))
        ),
        End::OutOfSteps => matches!(reached, Err(Stop::OutOfSteps)),
    }
}

const ROWS: [Row; 31] = [
    ("", "", End::Whole),
    ("a\\b\\", "ab", End::Whole),
    ("zbz", "aba", End::Whole),
    // arguments of one group, and of two
    ("f(b,a)b", "avalueab", End::Whole),
    ("f(b)(a)b", "avalueab", End::Whole),
    ("f(z,z)", "avaluea", End::Whole),
    ("g(g(g(b)))b", "valueb", End::Whole),
    ("f(g(a),b)", "bvalueb", End::Whole),
    // what a macro stands for gives the arguments of another
    ("t(g)(a)", "", End::BadArguments),
    ("gz", "", End::BadArguments),
    // a text
    ("t(a)b", "abab", End::Whole),
    ("t(a(b),(\\))", "a(b),()ba(b),()", End::Whole),
    ("t()", "b", End::Whole),
    // arguments that are missing, that are too many, and that are not closed
    ("f(b)a", "", End::BadArguments),
    ("fa", "", End::BadArguments),
    ("f", "", End::BadArguments),
    ("f(ba)", "", End::BadArguments),
    ("f(b,a,a)", "", End::BadArguments),
    ("g(b,a)", "", End::BadArguments),
    ("f(b,ab)", "", End::Unexpected),
    ("f(b,a", "", End::Unexpected),
    ("t((a)", "", End::FileEndedInText),
    // arguments without delimiters: what is behind them stands behind the body
    ("pab", "valuebb", End::Whole),
    ("pppab;", "valuebbbb;", End::Whole),
    ("hab", "bab", End::Whole),
    ("eaoba", "valuebvaluea", End::Whole),
    ("eab", "", End::Unexpected),
    // a text up to the end of the statement
    ("saba;b", "abababa;b", End::Whole),
    ("s{a;}};", "{a;}b{a;}};", End::Whole),
    ("s{;", "", End::FileEndedInText),
    ("ajz", "aja", End::Whole),
];

/// Whether the text gives these fronts and this end.
fn is_right(
    alloc: Global,
    table: &Symbols<Meaning>,
    text: &[u8],
    budget: u64,
    fronts: &[u8],
    end: End,
) -> Result<bool, Fail> {
    let mut expander = Expander::new(alloc, budget);
    expander.start(1, tokens_of(alloc, text)?)?;
    let mut reader = Reader {
        asked: Vec::new(alloc),
        shown: Vec::new(alloc),
    };
    let reached = reader.read_all(alloc, &mut expander, table);
    if matches!(&reached, Err(Stop::NoMemory)) {
        return Err(Fail::from(NoMemory));
    }
    Ok(is_end(&reached, end) && reader.shown.as_slice() == fronts)
}

#[test]
fn texts_and_their_fronts(rt: HostRuntime) -> Result<(), Fail> {
    let alloc = rt.alloc();
    let table = table_of(alloc)?;
    for (number, (text, fronts, end)) in ROWS.iter().enumerate() {
        if !is_right(alloc, &table, text.as_bytes(), 500, fronts.as_bytes(), *end)? {
            return Err(Fail::new(number));
        }
    }
    // three symbols and the end of a line are four items, and the end of the file is one
    if !is_right(alloc, &table, b"aba", 5, b"aba", End::Whole)? {
        return Err(Fail::new(100));
    }
    if !is_right(alloc, &table, b"aba", 4, b"aba", End::OutOfSteps)? {
        return Err(Fail::new(101));
    }
    Ok(())
}

/// So many calls, each in the argument of the one before it.
fn nested(alloc: Global, calls: u32) -> Result<Vec<u8>, Fail> {
    let mut text = Vec::new(alloc);
    'calls: for _ in 0..calls {
        text.extend_from_slice(b"g(")?;
    }
    text.push(b'a')?;
    'ends: for _ in 0..calls {
        text.push(b')')?;
    }
    Ok(text)
}

#[test]
fn as_many_calls_as_may_wait(rt: HostRuntime) -> Result<(), Fail> {
    let alloc = rt.alloc();
    let table = table_of(alloc)?;
    if !is_right(
        alloc,
        &table,
        nested(alloc, 100)?.as_slice(),
        5000,
        b"value",
        End::Whole,
    )? {
        return Err(Fail::new(0));
    }
    if !is_right(
        alloc,
        &table,
        nested(alloc, 101)?.as_slice(),
        5000,
        b"",
        End::NestingLimit,
    )? {
        return Err(Fail::new(1));
    }
    Ok(())
}

#[test]
fn a_call_with_arguments_and_an_item_put_back(rt: HostRuntime) -> Result<(), Fail> {
    let alloc = rt.alloc();
    let mut expander = Expander::new(alloc, 10);
    let mut got = Arguments::new(alloc);
    got.push(body_of(alloc, b"b")?)?;
    expander.call(macro_of(alloc, &[], Level::Suffixed, b"a0")?, got)?;
    expander.put_back(Item::Symbol(symbol_of(b'z')))?;
    for byte in b"zab" {
        match expander.take()? {
            Some(Pending::Item(Item::Symbol(symbol))) if symbol == symbol_of(*byte) => {}
            _ => return Err(Fail::new(0)),
        }
    }
    if expander.take()?.is_some() || expander.steps() != 3 {
        return Err(Fail::new(1));
    }
    expander.enter()?;
    expander.leave();
    if expander.place().line != 0 {
        return Err(Fail::new(2));
    }
    Ok(())
}
