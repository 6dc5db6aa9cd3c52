//! Operators on truths, strings and numbers, comparisons and tests of values.

use super::{ROOM, expect_texts, run_text, sources, words};
use crate::top::mpost_main;
use mp_files::{MemoryFiles, MemorySink, NullShelf};
use std::alloc::{AllocError, Global};
use std::process::Abort;
use std::test::Fail;

/// What the operands speak of: y is unknown, x depends on it, u and o have no value.
const BEFORE: &str = "y=x+1; string u; boolean o; vardef c@# = 5 enddef; show ";

/// Operands of each kind, with and without a value; the fourth is the value of a macro with a suffix.
const OPERANDS: [&str; 9] = [
    "2",
    "y",
    "x",
    "c.a",
    "\"a\"",
    "u",
    "true",
    "o",
    "begingroup endgroup",
];

/// An operator, and what it gives before each of the operands: what is shown, or W for WrongType, K for NotKnown.
const UNARY: [(&str, &str); 8] = [
    ("+", "2 y y-1 5 W W W W W"),
    ("-", "-2 -y -y+1 -5 W W W W W"),
    ("not", "W W W W W W false K W"),
    ("known", "true false false true true false true false true"),
    (
        "unknown",
        "false true true false false true false true false",
    ),
    (
        "boolean",
        "false false false false false false true true false",
    ),
    (
        "numeric",
        "true true true true false false false false false",
    ),
    (
        "string",
        "false false false false true true false false false",
    ),
];

/// An operator, and what it gives between each two: a row for each left operand, with the right ones in their order.
const BINARY: [(&str, &str); 13] = [
    (
        "+",
        "4 y+2 y+1 7 W W W W W
         y+2 2y 2y-1 y+5 W W W W W
         y+1 2y-1 2y-2 y+4 W W W W W
         7 y+5 y+4 10 W W W W W
         W W W W W W W W W
         W W W W W W W W W
         W W W W W W W W W
         W W W W W W W W W
         W W W W W W W W W",
    ),
    (
        "-",
        "0 -y+2 -y+3 -3 W W W W W
         y-2 0 1 y-5 W W W W W
         y-3 -1 0 y-6 W W W W W
         3 -y+5 -y+6 0 W W W W W
         W W W W W W W W W
         W W W W W W W W W
         W W W W W W W W W
         W W W W W W W W W
         W W W W W W W W W",
    ),
    (
        "*",
        "4 2y 2y-2 10 W W W W W
         2y K K 5y W W W W W
         2y-2 K K 5y-5 W W W W W
         10 5y 5y-5 25 W W W W W
         W W W W W W W W W
         W W W W W W W W W
         W W W W W W W W W
         W W W W W W W W W
         W W W W W W W W W",
    ),
    (
        "/",
        "1 K K 0.4 W W W W W
         0.5y K K 0.2y W W W W W
         0.5y-0.5 K K 0.2y-0.2 W W W W W
         2.5 K K 1 W W W W W
         W W W W W W W W W
         W W W W W W W W W
         W W W W W W W W W
         W W W W W W W W W
         W W W W W W W W W",
    ),
    (
        "and",
        "W W W W W W W W W
         W W W W W W W W W
         W W W W W W W W W
         W W W W W W W W W
         W W W W W W W W W
         W W W W W W W W W
         W W W W W W true K W
         W W W W W W K K W
         W W W W W W W W W",
    ),
    (
        "or",
        "W W W W W W W W W
         W W W W W W W W W
         W W W W W W W W W
         W W W W W W W W W
         W W W W W W W W W
         W W W W W W W W W
         W W W W W W true K W
         W W W W W W K K W
         W W W W W W W W W",
    ),
    (
        "&",
        "W W W W W W W W W
         W W W W W W W W W
         W W W W W W W W W
         W W W W W W W W W
         W W W W \"aa\" K W W W
         W W W W K K W W W
         W W W W W W W W W
         W W W W W W W W W
         W W W W W W W W W",
    ),
    (
        "<",
        "false K K true W W W W W
         K false false K W W W W W
         K true false K W W W W W
         false K K false W W W W W
         W W W W false K W W W
         W W W W K K W W W
         W W W W W W false K W
         W W W W W W K K W
         W W W W W W W W W",
    ),
    (
        "<=",
        "true K K true W W W W W
         K true false K W W W W W
         K true true K W W W W W
         false K K true W W W W W
         W W W W true K W W W
         W W W W K K W W W
         W W W W W W true K W
         W W W W W W K K W
         W W W W W W W W W",
    ),
    (
        ">",
        "false K K false W W W W W
         K false true K W W W W W
         K false false K W W W W W
         true K K false W W W W W
         W W W W false K W W W
         W W W W K K W W W
         W W W W W W false K W
         W W W W W W K K W
         W W W W W W W W W",
    ),
    (
        ">=",
        "true K K false W W W W W
         K true true K W W W W W
         K false true K W W W W W
         true K K true W W W W W
         W W W W true K W W W
         W W W W K K W W W
         W W W W W W true K W
         W W W W W W K K W
         W W W W W W W W W",
    ),
    (
        "=",
        "true K K false W W W W W
         K true false K W W W W W
         K false true K W W W W W
         false K K true W W W W W
         W W W W true K W W W
         W W W W K K W W W
         W W W W W W true K W
         W W W W W W K K W
         W W W W W W W W W",
    ),
    (
        "<>",
        "false K K true W W W W W
         K false true K W W W W W
         K true false K W W W W W
         true K K false W W W W W
         W W W W false K W W W
         W W W W K K W W W
         W W W W W W false K W
         W W W W W W K K W
         W W W W W W W W W",
    ),
];

/// What operators give: a source text, what is written and the status.
const RESULTS: [(&str, &str, u8); 38] = [
    (
        "show true, false, not true, not false, not not true;",
        ">> true\n>> false\n>> false\n>> true\n>> true\n",
        0,
    ),
    (
        "show true and true, true and false, false and true, false and false;",
        ">> true\n>> false\n>> false\n>> false\n",
        0,
    ),
    (
        "show true or true, true or false, false or true, false or false;",
        ">> true\n>> true\n>> true\n>> false\n",
        0,
    ),
    (
        "show false and (1/0=1);",
        "a.mp:1: error 11 DivisionByZero\n",
        1,
    ),
    (
        "boolean b; show false and b;",
        "a.mp:1: error 9 NotKnown and\n",
        1,
    ),
    (
        "boolean b; show true or b;",
        "a.mp:1: error 9 NotKnown or\n",
        1,
    ),
    (
        "show 1<2, 2<=2, 3>4, 4>=4, 1=2, 1<>2;",
        ">> true\n>> true\n>> false\n>> true\n>> false\n>> true\n",
        0,
    ),
    (
        "show false<true, true<=false, true>false, false>=false, true=false, true<>false;",
        ">> true\n>> false\n>> true\n>> true\n>> false\n>> true\n",
        0,
    ),
    (
        "show \"Z\"<\"a\", \"ab\"<\"b\", \"a\"<\"ab\", \"\"<\"a\", \"a\"<\"a\", \"a\"<=\"a\", \"b\">\"ab\", \"10\"<\"9\";",
        ">> true\n>> true\n>> true\n>> true\n>> false\n>> true\n>> true\n>> true\n",
        0,
    ),
    (
        "show \"\u{e9}\">\"z\", \"a\"=\"a \", \"a\"<>\"A\";",
        ">> true\n>> false\n>> true\n",
        0,
    ),
    (
        "show \"a\"&\"b\", \"\"&\"\", \"a\"&\"\"&\"b\";",
        ">> \"ab\"\n>> \"\"\n>> \"ab\"\n",
        0,
    ),
    (
        "show 32767<-.99998, 32767>=-.99998;",
        ">> false\n>> true\n",
        0,
    ),
    ("show 32767<-32767;", "a.mp:1: error 10 Overflow\n", 1),
    ("show 32767=-1;", "a.mp:1: error 10 Overflow\n", 1),
    ("show -32767<1;", "a.mp:1: error 10 Overflow\n", 1),
    (
        "show x-x=0, x+1>x, x<x, x<=x, 2x=x+x;",
        ">> true\n>> true\n>> false\n>> true\n>> true\n",
        0,
    ),
    ("show x<y;", "a.mp:1: error 9 NotKnown <\n", 1),
    ("show x=1;", "a.mp:1: error 9 NotKnown =\n", 1),
    (
        "x=y+1; show x>y, x-y=1, x<>y+1;",
        ">> true\n>> true\n>> false\n",
        0,
    ),
    ("show x+30000<y-30000;", "a.mp:1: error 9 NotKnown <\n", 1),
    ("show x+30000>x-30000;", "a.mp:1: error 10 Overflow\n", 1),
    (
        "show 30000x+30000x<-30000x;",
        "a.mp:1: error 9 NotKnown <\n",
        1,
    ),
    ("show (x/32767)/5=(x/32767)/6;", ">> true\n", 0),
    ("show (x/32767)/5=0;", "a.mp:1: error 9 NotKnown =\n", 1),
    (
        "y:=2x; x=20000; show y<\"a\";",
        "a.mp:1: error 8 WrongType <\n",
        1,
    ),
    (
        "y:=2x; x=20000; show known y;",
        "a.mp:1: error 10 Overflow\n",
        1,
    ),
    (
        "y:=2x; x=20000; show numeric y;",
        "a.mp:1: error 10 Overflow\n",
        1,
    ),
    (
        "y:=2x; x=20000; z:=30000a+30000a+30000b+30000b; a=b; show y<z;",
        "a.mp:1: error 10 Overflow\n",
        1,
    ),
    (
        "y:=2x; x=20000; z:=30000a+30000a+30000b+30000b; a=b; show z<y;",
        "a.mp:1: error 14 CoefficientTooLarge\n",
        1,
    ),
    (
        "string s; boolean b; numeric n; show string s, numeric s, known s, boolean b, unknown b, numeric n, known n;",
        ">> true\n>> false\n>> false\n>> true\n>> true\n>> true\n>> false\n",
        0,
    ),
    (
        "show numeric numeric x, boolean numeric x, string str x, numeric str x, string x;",
        ">> false\n>> true\n>> true\n>> false\n>> false\n",
        0,
    ),
    (
        "show known begingroup endgroup, unknown begingroup endgroup, numeric begingroup endgroup;",
        ">> true\n>> false\n>> false\n",
        0,
    ),
    (
        "show linecap=1, known linecap, numeric linecap, linecap<miterlimit;",
        ">> true\n>> true\n>> true\n>> true\n",
        0,
    ),
    (
        "x+y=3; show known x; x-y=1; show known x, known (x*y);",
        ">> false\n>> true\n>> true\n",
        0,
    ),
    (
        "def kn(expr a) = show known a; x = 1; show known a, a = 1 enddef; kn(x);",
        ">> false\n>> true\n>> true\n",
        0,
    ),
    (
        "string s; def kn(expr a) = show known a, string a; s = \"q\"; show known a, a = \"q\" enddef; kn(s);",
        ">> false\n>> true\n>> true\n>> true\n",
        0,
    ),
    (
        "vardef z@#(expr a) = known a and (str @# = \"x\") enddef; show z.x(1), z.y(1), z.x(q);",
        ">> true\n>> false\n>> false\n",
        0,
    ),
    ("string s; show s=\"a\";", "a.mp:1: error 9 NotKnown =\n", 1),
];

/// The same, of which operator binds first.
const LEVELS: [(&str, &str, u8); 20] = [
    (
        "show not true and false, not (true and false), true or false and false, false=true or true;",
        ">> false\n>> true\n>> true\n>> false\n",
        0,
    ),
    (
        "boolean a, b, c, d; a=true; b=c=d=false; show a=b and c=d, (a=b) and (c=d);",
        ">> true\n>> false\n",
        0,
    ),
    ("show 1=1 and 2=2;", "a.mp:1: error 8 WrongType and\n", 1),
    ("if 1<2 and true: fi", "a.mp:1: error 8 WrongType and\n", 1),
    (
        "show 1<2=true, true=1<2;",
        ">> true\na.mp:1: error 8 WrongType =\n",
        1,
    ),
    (
        "show \"a\"<\"b\"=true, \"a\"&\"b\"&\"c\"=\"abc\"; show \"ab\"=\"a\"&\"b\";",
        ">> true\n>> true\na.mp:1: error 8 WrongType &\n",
        1,
    ),
    ("show 2<3<4;", "a.mp:1: error 8 WrongType <\n", 1),
    (
        "x=1; y=2; show -x<y, -x+y=1, 2x=y, x*y>=y/x;",
        ">> true\n>> true\n>> true\n>> true\n",
        0,
    ),
    ("show 2 known x;", "a.mp:1: error 8 WrongType *\n", 1),
    ("show 1 not 2;", "a.mp:1: error 8 WrongType not\n", 1),
    ("show not 1<2;", "a.mp:1: error 8 WrongType not\n", 1),
    (
        "show known x and known y, unknown x or known y, not known x;",
        ">> false\n>> true\n>> true\n",
        0,
    ),
    (
        "primarydef a nand b = not (a and b) enddef; show true nand true or true, true nand false and true;",
        ">> true\n>> true\n",
        0,
    ),
    (
        "primarydef a less b = (a<b) enddef; show 1*1 less 2, 1 less 2 and 2 less 3;",
        ">> true\na.mp:1: error 8 WrongType and\n",
        1,
    ),
    (
        "secondarydef a xor b = (a<>b) enddef; show true xor false and false, true or true xor true, 1=1 xor true;",
        ">> true\n>> false\na.mp:1: error 8 WrongType <>\n",
        1,
    ),
    (
        "tertiarydef a implies b = (not a or b) enddef; show (1<2) implies (2<1), 1<2 implies true, false implies true=false;",
        ">> false\n>> true\n>> false\n",
        0,
    ),
    (
        "tertiarydef a then b = 10a+b enddef; show 1 then 2<20, 1<2 then 3;",
        ">> true\na.mp:1: error 8 WrongType *\n",
        1,
    ),
    (
        "tertiarydef a plus b = a+b enddef; x plus 1 = 4; show x, x plus 1 = 4;",
        ">> 3\n>> true\n",
        0,
    ),
    (
        "def f expr a = show a enddef; f 1=1; def g tertiary a = show a enddef; g 1=2;",
        ">> true\n>> false\n",
        0,
    ),
    (
        "def set suffix v = v enddef; set x = 3; show x;",
        ">> 3\n",
        0,
    ),
];

/// The same, of equations and comparisons, and of where the words may stand.
const SIDES: [(&str, &str, u8); 27] = [
    (
        "a=b=c=3; show a, b, c, a=b=true, (a=b)=(b=c); show a=b=c;",
        ">> 3\n>> 3\n>> 3\n>> true\n>> true\na.mp:1: error 8 WrongType =\n",
        1,
    ),
    ("show 1=1, (1=1), 1=2;", ">> true\n>> true\n>> false\n", 0),
    (
        "boolean p; p=(1=2); show p; p:=1<2; show p; p:=not p; show p;",
        ">> false\n>> true\n>> false\n",
        0,
    ),
    (
        "boolean p; p=1<2; show p; p=true; p=false;",
        ">> true\n## redundant 0\na.mp:1: error 13 Inconsistent 0\n",
        1,
    ),
    ("boolean p; p=1=2;", "a.mp:1: error 13 Inconsistent -1\n", 1),
    (
        "boolean p; p:=1=1;",
        "## redundant 0\na.mp:1: error 8 WrongType :=\n",
        1,
    ),
    (
        "boolean p, q; q:=p; p=true; show q; q:=false; show p, q;",
        ">> true\n>> true\n>> false\n",
        0,
    ),
    (
        "true=true; 1<2=true; true=false;",
        "## redundant 0\n## redundant 0\na.mp:1: error 13 Inconsistent 0\n",
        1,
    ),
    (
        "show begingroup 1=1 endgroup, begingroup (1=1) endgroup;",
        "## redundant 0\n>> vacuous\n>> true\n",
        0,
    ),
    ("true;", "a.mp:1: error 7 Unexpected \"=\" \";\"\n", 1),
    ("1<2;", "a.mp:1: error 7 Unexpected \"=\" \";\"\n", 1),
    ("(1=1);", "a.mp:1: error 7 Unexpected \"=\" \";\"\n", 1),
    ("known x;", "a.mp:1: error 7 Unexpected \"=\" \";\"\n", 1),
    ("jobname; \"a\"&\"b\"; show 1;", ">> 1\n", 0),
    ("true:=1;", "a.mp:1: error 7 Unexpected \"=\" \":=\"\n", 1),
    (
        "and;",
        "a.mp:1: error 7 Unexpected \"statement\" \"and\"\n",
        1,
    ),
    ("<1;", "a.mp:1: error 7 Unexpected \"statement\" \"<\"\n", 1),
    (
        "& \"a\";",
        "a.mp:1: error 7 Unexpected \"statement\" \"&\"\n",
        1,
    ),
    (
        "show and;",
        "a.mp:1: error 7 Unexpected \"primary\" \"and\"\n",
        1,
    ),
    (
        "show 1<;",
        "a.mp:1: error 7 Unexpected \"primary\" \";\"\n",
        1,
    ),
    (
        "show numeric;",
        "a.mp:1: error 7 Unexpected \"primary\" \";\"\n",
        1,
    ),
    (
        "show true false;",
        ">> true\na.mp:1: error 7 Unexpected \";\" \"false\"\n",
        1,
    ),
    (
        "numeric x=3;",
        "a.mp:1: error 7 Unexpected \";\" \"=\"\n",
        1,
    ),
    (
        "let und=and; show true und false, 1 und true;",
        ">> false\na.mp:1: error 8 WrongType and\n",
        1,
    ),
    (
        "let eq = =; show 1 eq 1; x eq 3; show x;",
        ">> true\n>> 3\n",
        0,
    ),
    ("save and; show 2and;", ">> 2and\n", 0),
    (
        "show jobname, jobname&\".1\"; message jobname;",
        ">> \"a\"\n>> \"a.1\"\na\n",
        0,
    ),
];

/// What is written for a result of the tables above.
fn written(alloc: Global, operator: &str, given: &str) -> Result<String, AllocError> {
    match given {
        "W" => format!(in alloc; "a.mp:1: error 8 WrongType {operator}\n"),
        "K" => format!(in alloc; "a.mp:1: error 9 NotKnown {operator}\n"),
        shown => format!(in alloc; ">> {shown}\n"),
    }
}

fn expect_shown(
    rt: &impl Abort,
    alloc: Global,
    phrase: &str,
    operator: &str,
    given: &str,
) -> Result<(), Fail> {
    let text = format!(in alloc; "{BEFORE}{phrase};")?;
    let wanted = written(alloc, operator, given)?;
    let left = run_text(alloc, text.as_str())?;
    assert_eq!(rt; left.written.as_slice(), wanted.as_bytes(), "{phrase}");
    Ok(())
}

/// Tries an operator between each two operands.
fn expect_between(
    rt: &impl Abort,
    alloc: Global,
    operator: &str,
    results: &str,
) -> Result<(), Fail> {
    let mut results = results.split_whitespace();
    for left in OPERANDS {
        for right in OPERANDS {
            let phrase = format!(in alloc; "{left} {operator} {right}")?;
            let given = results.next().unwrap_or("none");
            expect_shown(rt, alloc, phrase.as_str(), operator, given)?;
        }
    }
    Ok(())
}

#[test]
fn each_operand_has_its_result(rt: HostRuntime) -> Result<(), Fail> {
    let alloc = rt.alloc();
    for (operator, results) in UNARY {
        let mut results = results.split_whitespace();
        for operand in OPERANDS {
            let phrase = format!(in alloc; "{operator} {operand}")?;
            let given = results.next().unwrap_or("none");
            expect_shown(&rt, alloc, phrase.as_str(), operator, given)?;
        }
    }
    Ok(())
}

#[test]
fn each_two_operands_have_their_result(rt: HostRuntime) -> Result<(), Fail> {
    for (operator, results) in BINARY {
        expect_between(&rt, rt.alloc(), operator, results)?;
    }
    Ok(())
}

#[test]
fn operators_give_their_results(rt: HostRuntime) -> Result<(), Fail> {
    expect_texts(&rt, rt.alloc(), &RESULTS)
}

#[test]
fn operators_bind_by_their_levels(rt: HostRuntime) -> Result<(), Fail> {
    expect_texts(&rt, rt.alloc(), &LEVELS)
}

#[test]
fn sides_end_at_an_equals_sign(rt: HostRuntime) -> Result<(), Fail> {
    expect_texts(&rt, rt.alloc(), &SIDES)
}

/// A file, and the name that `jobname` gives for it.
const JOBS: [(&str, &str); 7] = [
    ("a", "a"),
    ("a.mp", "a"),
    ("d.e/a.b.mp", "a.b"),
    ("d.e/a", "a"),
    ("a.", "a"),
    (".mp", ""),
    ("d/x.y.z", "x.y"),
];

#[test]
fn a_job_is_named_by_its_file(rt: HostRuntime) -> Result<(), Fail> {
    let alloc = rt.alloc();
    for (name, job) in JOBS {
        let words = words(alloc, format!(in alloc; "--bare {name}")?.as_str())?;
        let ending = if name == "a" || name == "d.e/a" {
            ".mp"
        } else {
            ""
        };
        let file = format!(in alloc; "{name}{ending}")?;
        let files = sources(alloc, file.as_bytes(), b"message jobname;")?;
        let mut files = MemoryFiles::new(alloc, files, &[])?;
        let mut sink = MemorySink::new(alloc, ROOM, &[])?;
        mpost_main(
            alloc,
            words.as_slice(),
            &mut files,
            &mut NullShelf,
            &mut sink,
        );
        let wanted = format!(in alloc; "{job}\n")?;
        assert_eq!(rt; sink.as_slice(), wanted.as_bytes(), "{name}");
    }
    Ok(())
}
