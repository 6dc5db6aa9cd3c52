//! Steps, and what is at most.

use super::run_text;
use std::alloc::{AllocError, Global};
use std::test::Fail;

/// A source text, and how many items are taken of it.
const STEPS: [(&str, u64); 27] = [
    ("show 1/3+2;end", 8),
    ("", 1),
    ("\n", 2),
    ("show 5", 4),
    (";;\n;show 7 end", 7),
    ("show 1 2;\n", 3),
    ("x+y=3; x-y=1; show x,y; end", 18),
    ("let a=show; a 3/(1);end", 13),
    ("show 1/(2);end", 8),
    ("a1=2;show a[1];end", 12),
    ("numeric a[]b;end", 7),
    ("def f expr a=a enddef;show f 1;end", 15),
    ("def f primary a=a enddef;show f 1/(2);end", 20),
    ("def f text t=t enddef;f show 1;end", 16),
    ("primarydef a o b=a enddef;show 1 o 2;end", 16),
    ("vardef z@#=1 enddef;show z.a;end", 16),
    ("vardef z@#=1 enddef;show z[1,2];end", 16),
    ("show if true:1 else:2 fi;end", 11),
    ("if false:show 1;fi end", 8),
    ("if true:\nshow 1;\nfi\n", 11),
    ("x=1 if known x:+1 fi;show x;end", 15),
    ("if false: if true: fi else: end", 10),
    ("if false:elseif true:else:fi end", 10),
    ("if if true:false fi:fi end", 9),
    ("def f primary a=a enddef;show f if true:1 fi;end", 19),
    ("show 1<2=true;end", 8),
    ("tertiarydef a o b=a enddef;show 1 o 2=1;end", 18),
];

#[test]
fn items_are_counted(rt: HostRuntime) -> Result<(), Fail> {
    for (text, steps) in STEPS {
        assert_eq!(rt; run_text(rt.alloc(), text)?.steps, steps, "{text}");
    }
    Ok(())
}

/// What stands first, a piece and how often it follows, what stands last, and how what is written ends.
type Repeated = (
    &'static str,
    &'static str,
    usize,
    &'static str,
    &'static str,
);

/// Names have 50 parts, strings and texts 65536 bytes.
const LONG: [Repeated; 15] = [
    (
        "show a",
        ".b",
        51,
        ";\n",
        "a.mp:1: error 28 Limit Suffix 50\n",
    ),
    (
        "show str a",
        ".b",
        50,
        ";\n",
        "a.mp:1: error 28 Limit Suffix 50\n",
    ),
    (
        "numeric a",
        "[]",
        51,
        ";\n",
        "a.mp:1: error 28 Limit Suffix 50\n",
    ),
    ("a", "[1]", 50, "=7; show 2;\n", ">> 2\n"),
    ("def f(expr a", ",a", 63, ")=enddef; show 3;", ">> 3\n"),
    (
        "def f(expr a",
        ",a",
        64,
        ")=enddef; show 3;",
        "a.mp:1: error 28 Limit Params 64\n",
    ),
    (
        "vardef a",
        ".b",
        51,
        "=enddef;",
        "a.mp:1: error 28 Limit Suffix 50\n",
    ),
    (
        "b=-32767.99998; show str ",
        "a",
        65472,
        "[b][b][b][b][b][b][b]",
        "a.mp:1: error 28 Limit Text 65536\n",
    ),
    (
        "b=-32767.99998; show str ",
        "a",
        65438,
        "[b][b][b][b][b][b][b]",
        "[-32767.99998]\"\n",
    ),
    (";", "show 1;", 9362, "", ">> 1\n"),
    ("show 0", "+.5", 21843, "", ">> 10921.5\n"),
    ("show 1", ",1", 32765, "", ">> 1\n"),
    ("x", "=x", 32767, "", "## redundant 0\n"),
    ("save y", ",y", 32761, ";show 2", ">> 2\n"),
    ("", ";;", 32768, ";", "mpost:0: error 29 NotBuilt long\n"),
];

/// The same, of suffixes behind a name, arguments without delimiters, and operators.
const LONG_CALLS: [Repeated; 13] = [
    (
        "vardef z@#=str @# enddef; show z",
        ".b",
        50,
        ";",
        ".b.b\"\n",
    ),
    (
        "vardef z@#=str @# enddef; show z",
        ".b",
        51,
        ";",
        "a.mp:1: error 28 Limit Suffix 50\n",
    ),
    (
        "vardef z.a@#=str @# enddef; show z.a",
        ".b",
        49,
        ";",
        ".b.b\"\n",
    ),
    (
        "vardef z.a@#=str @# enddef; show z.a",
        ".b",
        50,
        ";",
        "a.mp:1: error 28 Limit Suffix 50\n",
    ),
    ("def f primary a=a enddef; show ", "f ", 99, "1;", ">> 1\n"),
    (
        "def f primary a=a enddef; show ",
        "f ",
        100,
        "1;",
        "a.mp:1: error 28 Limit Nesting 100\n",
    ),
    (
        "def g expr t of p=p enddef; show ",
        "g 1 of ",
        99,
        "2;",
        ">> 2\n",
    ),
    (
        "def g expr t of p=p enddef; show ",
        "g 1 of ",
        100,
        "2;",
        "a.mp:1: error 28 Limit Nesting 100\n",
    ),
    ("def s suffix a=a enddef; show ", "s ", 100, "x;", ">> x\n"),
    (
        "def s suffix a=a enddef; show ",
        "s ",
        101,
        "x;",
        "a.mp:1: error 28 Limit Nesting 100\n",
    ),
    ("def t text a=a enddef; show ", "t ", 200, "1;", ">> 1\n"),
    (
        "primarydef a o b=(a+b) enddef; show 1",
        " o 1",
        10000,
        ";",
        ">> 10001\n",
    ),
    (
        "tertiarydef a o b=b enddef; show 1",
        " o 1",
        10000,
        ";",
        ">> 1\n",
    ),
];

/// The same, of conditions and operators.
const LONG_CONDITIONS: [Repeated; 20] = [
    ("show 1;", "if true:", 5000, "show 2;", ">> 1\n>> 2\n"),
    ("", "if true:", 5000, "fi fi show 1;", ">> 1\n"),
    ("if false:", "x ", 30000, "fi show 1;", ">> 1\n"),
    ("if false:", "if fi ", 10000, "fi show 1;", ">> 1\n"),
    (
        "if false:",
        "if ",
        20000,
        "fi show 1;",
        "a.mp:1: error 6 FileEndedInText\n",
    ),
    (
        "if false:",
        "elseif false:",
        4000,
        "else:show 1;fi",
        ">> 1\n",
    ),
    (
        "if true:show 1;",
        "elseif 1:",
        7000,
        "else:show 2;fi",
        ">> 1\n",
    ),
    ("show 0", " if true:+1 fi", 4000, ";", ">> 4000\n"),
    (
        "",
        "if ",
        99,
        "true:",
        "a.mp:1: error 7 Unexpected \"primary\" \"end of text\"\n",
    ),
    (
        "",
        "if ",
        100,
        "true:",
        "a.mp:1: error 28 Limit Nesting 100\n",
    ),
    (
        "def f(expr a)=enddef; ",
        "f(if ",
        50,
        "true:",
        "a.mp:1: error 28 Limit Nesting 100\n",
    ),
    ("show ", "not ", 99, "true;", ">> false\n"),
    (
        "show ",
        "not ",
        100,
        "true;",
        "a.mp:1: error 28 Limit Nesting 100\n",
    ),
    ("show ", "known ", 99, "x;", ">> true\n"),
    ("show true", " and true", 7000, ";", ">> true\n"),
    ("show false", " or false", 7000, ";", ">> false\n"),
    ("show true", "=true", 13000, ";", ">> true\n"),
    ("show \"b\"", "&\"a\"", 9000, ";", "aaaa\"\n"),
    (
        "string s;s=\"a\";",
        "s:=s&s;",
        16,
        "show known (s&\"\");show s&\"a\";",
        ">> true\na.mp:1: error 28 Limit Text 65536\n",
    ),
    (
        "string s;s=\"a\";",
        "s:=s&s;",
        17,
        "show 1;",
        "a.mp:1: error 28 Limit Text 65536\n",
    ),
];

fn repeated(
    alloc: Global,
    first: &str,
    piece: &str,
    times: usize,
    last: &str,
) -> Result<String, AllocError> {
    let pieces = piece.repeat(alloc, times)?;
    format!(in alloc; "{first}{pieces}{last}")
}

#[test]
fn long_texts_end_so(rt: HostRuntime) -> Result<(), Fail> {
    for (first, piece, times, last, wanted) in LONG {
        let text = repeated(rt.alloc(), first, piece, times, last)?;
        let left = run_text(rt.alloc(), text.as_str())?;
        assert!(rt;
            left.written.as_slice().ends_with(wanted.as_bytes()),
            "{first}{piece}"
        );
    }
    Ok(())
}

#[test]
fn long_calls_end_so(rt: HostRuntime) -> Result<(), Fail> {
    for (first, piece, times, last, wanted) in LONG_CALLS {
        let text = repeated(rt.alloc(), first, piece, times, last)?;
        let left = run_text(rt.alloc(), text.as_str())?;
        assert!(rt;
            left.written.as_slice().ends_with(wanted.as_bytes()),
            "{first}{piece}"
        );
    }
    Ok(())
}

#[test]
fn long_conditions_end_so(rt: HostRuntime) -> Result<(), Fail> {
    for (first, piece, times, last, wanted) in LONG_CONDITIONS {
        let text = repeated(rt.alloc(), first, piece, times, last)?;
        let left = run_text(rt.alloc(), text.as_str())?;
        assert!(rt;
            left.written.as_slice().ends_with(wanted.as_bytes()),
            "{first}{piece}"
        );
    }
    Ok(())
}

/// What stands first, so many pieces before a 1 and so many behind it, and what is written.
const NESTED: [Repeated; 4] = [
    ("show ", "(", 99, ")", ">> 1\n"),
    (
        "show ",
        "(",
        100,
        ")",
        "a.mp:1: error 28 Limit Nesting 100\n",
    ),
    ("x1=1; show ", "x[", 99, " ]", ">> 1\n"),
    (
        "x1=1; show ",
        "x[",
        100,
        " ]",
        "a.mp:1: error 28 Limit Nesting 100\n",
    ),
];

#[test]
fn primaries_nest_a_hundred_deep(rt: HostRuntime) -> Result<(), Fail> {
    for (first, open, depth, close, wanted) in NESTED {
        let opened = repeated(rt.alloc(), first, open, depth, "1")?;
        let text = repeated(rt.alloc(), opened.as_str(), close, depth, ";\n")?;
        let left = run_text(rt.alloc(), text.as_str())?;
        assert_eq!(rt; left.written.as_slice(), wanted.as_bytes());
    }
    Ok(())
}
