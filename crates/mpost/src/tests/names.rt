//! Names and types.

use super::expect_texts;
use std::test::Fail;

/// A source text, what is written and the status.
const NAMES: [(&str, &str, u8); 32] = [
    (
        "numeric a[]b; a3b=4; show a[1+2]b, str a[3]b; a3b:=5; show a3b; string a; a:=\"q\"; show a, a3b; end",
        ">> 4\n>> \"a3b\"\n>> 5\n>> \"q\"\n>> 5\n",
        0,
    ),
    (
        "x3:=4; i=2; show x[i+1], x[3.0], x[i]i, x.linecap, x[-1]2;\n",
        ">> 4\n>> 4\n>> x2i\n>> x.linecap\n>> x[-1][2]\n",
        0,
    ),
    (
        "show str z left, str a[1+2]b, str x[-1][2], str;\n",
        ">> \"z.left\"\n>> \"a3b\"\n>> \"x[-1][2]\"\n>> \"\"\n",
        0,
    ),
    ("x1:=y.a:=3; show x1, y.a;\n", ">> 3\n>> 3\n", 0),
    ("show x[y];\n", "a.mp:1: error 19 BadSubscript\n", 1),
    ("show x[\"a\"];\n", "a.mp:1: error 19 BadSubscript\n", 1),
    (
        "show x[1,2];\n",
        "a.mp:1: error 7 Unexpected \"]\" \",\"\n",
        1,
    ),
    (
        "show 2[3];\n",
        ">> 2\na.mp:1: error 7 Unexpected \";\" \"[\"\n",
        1,
    ),
    ("show 2str x;\n", "a.mp:1: error 8 WrongType *\n", 1),
    ("show x[y] path;\n", "a.mp:1: error 19 BadSubscript\n", 1),
    ("x\n[\ny\n]\n;", "a.mp:4: error 19 BadSubscript\n", 1),
    (
        "numeric a[1] path;\n",
        "a.mp:1: error 20 BadDeclaration\n",
        1,
    ),
    ("show string x;\n", ">> false\n", 0),
    (
        "begingroup save x; x1=y; newinternal x; endgroup; show y;\n",
        ">> x1\n",
        0,
    ),
    ("numeric a3;\n", "a.mp:1: error 20 BadDeclaration\n", 1),
    ("numeric a[1];\n", "a.mp:1: error 20 BadDeclaration\n", 1),
    ("numeric a[", "a.mp:1: error 20 BadDeclaration\n", 1),
    (
        "numeric 3;\n",
        "a.mp:1: error 7 Unexpected \"symbol\" \"number\"\n",
        1,
    ),
    (
        "numeric show.show;\n",
        "a.mp:1: error 7 Unexpected \";\" \"show\"\n",
        1,
    ),
    (
        "numeric path, x y; path3=7; show path3, x y;\n",
        ">> 7\n>> x.y\n",
        0,
    ),
    (
        "string s, t; t:=s; show t; s=\"now\"; show s, t; s=\"now\"; s=\"then\";\n",
        ">> unknown string\n>> \"now\"\n>> \"now\"\n## redundant 0\na.mp:1: error 13 Inconsistent 0\n",
        1,
    ),
    (
        "string s, t[]; t1=s=\"a\"; show t1, s; s; s:=\"b\"; message s;\n",
        ">> \"a\"\n>> \"a\"\nb\n",
        0,
    ),
    ("string s; s=1;\n", "a.mp:1: error 8 WrongType =\n", 1),
    ("string s; s:=1;\n", "a.mp:1: error 8 WrongType :=\n", 1),
    ("x:=\"a\";\n", "a.mp:1: error 8 WrongType :=\n", 1),
    ("string s; s=s;\n", "a.mp:1: error 9 NotKnown =\n", 1),
    (
        "string s; boolean b; s=b;\n",
        "a.mp:1: error 8 WrongType =\n",
        1,
    ),
    (
        "string s; message s;\n",
        "a.mp:1: error 9 NotKnown message\n",
        1,
    ),
    (
        "boolean b; show b; b;\n",
        ">> unknown boolean\na.mp:1: error 7 Unexpected \"=\" \";\"\n",
        1,
    ),
    (
        "y:=a1+a2; numeric a[]; show y, a1;\n",
        ">> ?2+?1\n>> a1\n",
        0,
    ),
    (
        "x=1; x1=2; numeric x; show x1; x:=3; show x; numeric x[]; show x;\n",
        ">> 2\n>> 3\n>> 3\n",
        0,
    ),
    (
        "begingroup save x; x1=y; z:=x2+1; string x; endgroup; show y, z, x1, x;\n",
        ">> ?1\n>> ?3+1\n>> x1\n>> x\n",
        0,
    ),
];

#[test]
fn names_and_types_give_their_lines(rt: HostRuntime) -> Result<(), Fail> {
    expect_texts(&rt, rt.alloc(), &NAMES)
}
