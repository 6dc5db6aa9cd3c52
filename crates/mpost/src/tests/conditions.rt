//! Conditions: which branch is read, where they may stand, what is refused, and macros that choose.

use super::expect_texts;
use std::test::Fail;

/// Which branch is read: a source text, what is written and the status.
const BRANCHES: [(&str, &str, u8); 30] = [
    (
        "show if true: 1 else: 2 fi, if false: 1 else: 2 fi;",
        ">> 1\n>> 2\n",
        0,
    ),
    ("x=1 if known x: +1 fi; show x;", ">> 1\n", 0),
    (
        "def size(expr n) = if n<10: \"small\" elseif n<100: \"middle\" elseif n<1000: \"large\" else: \"huge\" fi enddef;\nmessage size(5); message size(50); message size(500); message size(5000);\n",
        "small\nmiddle\nlarge\nhuge\n",
        0,
    ),
    (
        "if 1>2: show 1; elseif 2>3: show 2; fi show 3;",
        ">> 3\n",
        0,
    ),
    (
        "if true: show 1; elseif true: show 2; else: show 3; fi",
        ">> 1\n",
        0,
    ),
    (
        "if false: show 1; elseif true: show 2; elseif true: show 3; else: show 4; fi",
        ">> 2\n",
        0,
    ),
    (
        "if true: fi if false: fi if false: else: fi if true: ; fi show 1;",
        ">> 1\n",
        0,
    ),
    (
        "if true: if false: show 1; else: show 2; fi show 3; else: show 4; fi",
        ">> 2\n>> 3\n",
        0,
    ),
    (
        "if false: if true: show 1; else: show 2; fi show 3; else: show 4; fi",
        ">> 4\n",
        0,
    ),
    (
        "if true: show 1; else: if true: show 2; else: show 3; fi show 4; fi show 5;",
        ">> 1\n>> 5\n",
        0,
    ),
    ("if false: show \"fi\"; % fi\nelse: show 1; fi", ">> 1\n", 0),
    ("if false: path p; endgroup ) : end fi show 1;", ">> 1\n", 0),
    ("if false: 40000 fi", "a.mp:1: error 3 EnormousNumber\n", 1),
    (
        "show if true: 1 else: \"x fi;",
        "a.mp:1: error 2 UnfinishedString\n",
        1,
    ),
    ("if false:\n\u{1} fi", "a.mp:2: error 1 BadCharacter 1\n", 1),
    (
        "let cond=if; let done=fi; if false: cond true: show 1; done show 2; done show 3;",
        ">> 3\n",
        0,
    ),
    (
        "let otherwise=else; if false: show 1; otherwise : show 2; fi",
        ">> 2\n",
        0,
    ),
    (
        "let iff=if; save if; iff false: if show 1; fi show 2;",
        ">> 2\n",
        0,
    ),
    ("if true: save fi; show fi;", ">> fi\n", 0),
    (
        "if false: save fi; fi show 1;",
        "a.mp:1: error 16 LoneConditionWord\n",
        1,
    ),
    ("show 1; if true: show 2; end", ">> 1\n>> 2\n", 0),
    ("if true: end fi show 1;", "", 0),
    ("boolean b, c; c:=b; b=true; if c: show 1; fi", ">> 1\n", 0),
    (
        "if 1=1: show 1; fi if x=x: show 2; fi if not (1=2): show 3; fi",
        ">> 1\n>> 2\n>> 3\n",
        0,
    ),
    (
        "if if true: false else: true fi: show 1; else: show 2; fi",
        ">> 2\n",
        0,
    ),
    ("if if true: true: show 1; fi fi show 2;", ">> 1\n>> 2\n", 0),
    (
        "if if true: false: show 1; fi show 2; fi show 3;",
        ">> 2\n>> 3\n",
        0,
    ),
    ("if true: if true fi: show 1; fi show 2;", ">> 1\n>> 2\n", 0),
    (
        "if false: else if true: : show 1; fi fi show 2;",
        ">> 1\n>> 2\n",
        0,
    ),
    (
        "def colon = : enddef; if 1=1 colon show 1; fi if false: else colon show 2; fi",
        ">> 1\n>> 2\n",
        0,
    ),
];

/// The same, of places at which conditions may stand.
const PLACES: [(&str, &str, u8); 27] = [
    (
        "show 2+if true: 3* else: 4+ fi 5, if 1<2: - fi 7, 2 if true: * fi 3;",
        ">> 17\n>> -7\n>> 6\n",
        0,
    ),
    (
        "show 3 if true: x fi, x if true: 3 fi;",
        ">> 3x\n>> x3\n",
        0,
    ),
    (
        "show 1 if true: / fi 2, x if true: [1+1] fi y, 1/if true: 4 fi;",
        ">> 0.5\n>> x2y\n>> 0.25\n",
        0,
    ),
    (
        "show (if true: 1) fi, begingroup if true: 5 endgroup fi;",
        ">> 1\n>> 5\n",
        0,
    ),
    ("show if true: 1, 2 else: 3 fi, 4;", ">> 1\n>> 2\n>> 4\n", 0),
    ("show 1 if true: ; show 2 fi;", ">> 1\n>> 2\n", 0),
    ("x if true: 3 fi := 5; show x3;", ">> 5\n", 0),
    (
        "x = if true: 1 else: 2 fi = y; show x, y;",
        ">> 1\n>> 1\n",
        0,
    ),
    (
        "numeric a if true: , b fi; show a, b; save x if false: y fi; show x;",
        ">> a\n>> b\n>> x\n",
        0,
    ),
    (
        "begingroup if true: show 1; endgroup; show 2; fi show 3;",
        ">> 1\n>> 2\n>> 3\n",
        0,
    ),
    (
        "def f(expr a,b) = a-b enddef; show f(if true: 5, else: 6, fi if false: 1 else: 2 fi);",
        ">> 3\n",
        0,
    ),
    (
        "def f(expr a) = 2a enddef; show f if true: (3) else: (4) fi;",
        ">> 6\n",
        0,
    ),
    (
        "def p primary a = a+1 enddef; show p if true: 2 else: 3 fi*10;",
        ">> 12\n",
        0,
    ),
    (
        "def s suffix a = str a enddef; show s x if true: .y fi 2;",
        ">> \"x.y2\"\n",
        0,
    ),
    (
        "def twice(text t) = t t enddef; twice(if true: show 1; fi); twice(if false: show 2; else:) show 3; fi fi",
        ">> 1\n>> 1\n>> 3\n",
        0,
    ),
    (
        "def t text x = x enddef; t if true: show 1; fi show 2; t show if false: 3 else: 4 fi; show 5;",
        ">> 1\n>> 2\n>> 4\n>> 5\n",
        0,
    ),
    (
        "if true: def f = 1 enddef; else: def f = 2 enddef; fi show f;",
        ">> 1\n",
        0,
    ),
    (
        "if false: def open = if enddef; fi\nshow 1;",
        "a.mp:2: error 6 FileEndedInText\n",
        1,
    ),
    ("def f = if enddef; show f true: 1 else: 2 fi;", ">> 1\n", 0),
    (
        "def begin_if(expr c) = if c: enddef; def end_if = fi enddef; begin_if(1<2) show 1; end_if show 2;",
        ">> 1\n>> 2\n",
        0,
    ),
    (
        "def unless(expr c) = if not c: enddef; unless(1=2) show 1; fi unless(1=1) show 2; fi show 3;",
        ">> 1\n>> 3\n",
        0,
    ),
    (
        "def unless(expr c) = if not c: enddef; def done = fi enddef;\nunless(1=1) show 2; done",
        "a.mp:2: error 6 FileEndedInText\n",
        1,
    ),
    (
        "def done = fi enddef; if true: show 1; done if false: show 2; done show 3; fi show 4;",
        ">> 1\n>> 4\n",
        0,
    ),
    (
        "def otherwise = else: enddef; if true: show 1; otherwise show 2; fi if false: show 3; otherwise show 4; fi",
        ">> 1\n",
        0,
    ),
    (
        "def f(expr fi) = if true: show fi; enddef; f(3) fi show 4;",
        ">> 3\n>> 4\n",
        0,
    ),
    (
        "def count(expr n) = if n>0: show n; count(n-1) fi enddef; count(3);",
        ">> 3\n>> 2\n>> 1\n",
        0,
    ),
    (
        "show 1;\nif true:\n  show 1/0;\nfi",
        ">> 1\na.mp:3: error 11 DivisionByZero\n",
        1,
    ),
];

/// The same, of what is refused.
const REFUSED: [(&str, &str, u8); 34] = [
    ("if 1: fi", "a.mp:1: error 8 WrongType if\n", 1),
    ("if \"a\" 1", "a.mp:1: error 8 WrongType if\n", 1),
    ("if x: fi", "a.mp:1: error 8 WrongType if\n", 1),
    (
        "if begingroup endgroup: fi",
        "a.mp:1: error 8 WrongType if\n",
        1,
    ),
    ("if 1\n\n: fi", "a.mp:3: error 8 WrongType if\n", 1),
    (
        "let when=if; when 1: fi",
        "a.mp:1: error 8 WrongType if\n",
        1,
    ),
    ("boolean b; if b: fi", "a.mp:1: error 9 NotKnown if\n", 1),
    (
        "if false: elseif 3: fi",
        "a.mp:1: error 8 WrongType elseif\n",
        1,
    ),
    (
        "boolean b; if false: elseif b: fi",
        "a.mp:1: error 9 NotKnown elseif\n",
        1,
    ),
    (
        "if true 1: fi",
        "a.mp:1: error 7 Unexpected \":\" \"number\"\n",
        1,
    ),
    (
        "if true",
        "a.mp:1: error 7 Unexpected \":\" \"end of text\"\n",
        1,
    ),
    (
        "if",
        "a.mp:1: error 7 Unexpected \"primary\" \"end of text\"\n",
        1,
    ),
    (
        "if : 1 fi",
        "a.mp:1: error 7 Unexpected \"primary\" \":\"\n",
        1,
    ),
    (
        "if false: else",
        "a.mp:1: error 7 Unexpected \":\" \"end of text\"\n",
        1,
    ),
    (
        "if false:\nelse\nshow 1;\nfi",
        "a.mp:3: error 7 Unexpected \":\" \"show\"\n",
        1,
    ),
    ("fi", "a.mp:1: error 16 LoneConditionWord\n", 1),
    ("else: show 1;", "a.mp:1: error 16 LoneConditionWord\n", 1),
    (
        "elseif true: show 1;",
        "a.mp:1: error 16 LoneConditionWord\n",
        1,
    ),
    ("show 1\nfi;", "a.mp:2: error 16 LoneConditionWord\n", 1),
    (
        "show 1;\nfi",
        ">> 1\na.mp:2: error 16 LoneConditionWord\n",
        1,
    ),
    (
        "if true: show 1; fi fi",
        ">> 1\na.mp:1: error 16 LoneConditionWord\n",
        1,
    ),
    (
        "if true fi: show 1; fi",
        "a.mp:1: error 16 LoneConditionWord\n",
        1,
    ),
    (
        "def f = fi enddef;\nf",
        "a.mp:2: error 16 LoneConditionWord\n",
        1,
    ),
    ("show if true: 1 else: 2 else: 3 fi;", ">> 1\n", 0),
    (
        "show if false: 1 else: 2 else: 3 fi;",
        "a.mp:1: error 16 LoneConditionWord\n",
        1,
    ),
    (
        "if false: else: elseif true: fi",
        "a.mp:1: error 16 LoneConditionWord\n",
        1,
    ),
    (
        "if false: show 1;\n\nend",
        "a.mp:3: error 6 FileEndedInText\n",
        1,
    ),
    (
        "if true: show 1; else: show 2;",
        ">> 1\na.mp:1: error 6 FileEndedInText\n",
        1,
    ),
    ("if true: path p; fi", "a.mp:1: error 29 NotBuilt path\n", 1),
    ("if cycle x: fi", "a.mp:1: error 29 NotBuilt cycle\n", 1),
    (
        "if true: 1 fi;",
        "a.mp:1: error 7 Unexpected \"=\" \";\"\n",
        1,
    ),
    (
        "show 1: 2;",
        ">> 1\na.mp:1: error 7 Unexpected \";\" \":\"\n",
        1,
    ),
    (": 1", "a.mp:1: error 7 Unexpected \"statement\" \":\"\n", 1),
    (
        "show :",
        "a.mp:1: error 7 Unexpected \"primary\" \":\"\n",
        1,
    ),
];

/// The same, of macros such as users write.
const CHOICES: [(&str, &str, u8); 19] = [
    (
        "vardef max(expr a, b) = if a>b: a else: b fi enddef;\nvardef min(expr a, b) = if a<b: a else: b fi enddef;\nshow max(3, 5), min(3, 5), max(2, max(7, 4));\n",
        ">> 5\n>> 3\n>> 7\n",
        0,
    ),
    (
        "vardef abs primary x = if x<0: - fi x enddef;\nvardef sign primary x = if x>0: 1 elseif x<0: -1 else: 0 fi enddef;\nshow abs -3, abs(2-7), 2abs -4, sign 5, sign -5, sign 0;\n",
        ">> 3\n>> 5\n>> 8\n>> 1\n>> -1\n>> 0\n",
        0,
    ),
    (
        "vardef fact(expr n) = if n=0: 1 else: n*fact(n-1) fi enddef; show fact(0), fact(7);",
        ">> 1\n>> 5040\n",
        0,
    ),
    (
        "vardef fib(expr n) = if n<2: n else: fib(n-1)+fib(n-2) fi enddef; show fib(10);",
        ">> 55\n",
        0,
    ),
    (
        "vardef gcd(expr a, b) = if b=0: a elseif a<b: gcd(b, a) else: gcd(a-b, b) fi enddef; show gcd(12, 18), gcd(7, 5);",
        ">> 6\n>> 1\n",
        0,
    ),
    (
        "vardef power(expr x, n) = if n=0: 1 else: x*power(x, n-1) fi enddef; show power(2, 10), power(-3, 3);",
        ">> 1024\n>> -27\n",
        0,
    ),
    (
        "vardef clamp(expr x, lo, hi) = if x<lo: lo elseif x>hi: hi else: x fi enddef; show clamp(5, 0, 10), clamp(-5, 0, 10), clamp(15, 0, 10);",
        ">> 5\n>> 0\n>> 10\n",
        0,
    ),
    (
        "vardef between(expr a, x, b) = (a<=x) and (x<=b) enddef; show between(1, 2, 3), between(1, 4, 3);",
        ">> true\n>> false\n",
        0,
    ),
    (
        "vardef even(expr n) = if n=0: true else: not even(n-1) fi enddef; if even(6): show 6; fi show even(7);",
        ">> 6\n>> false\n",
        0,
    ),
    (
        "vardef describe(expr v) =\n  if known v: \"known\" else: \"unknown\" fi\n  & if numeric v: \" number\" elseif string v: \" string\" elseif boolean v: \" truth\" else: \" nothing\" fi\nenddef;\nboolean b;\nmessage describe(2); message describe(x); message describe(\"q\");\nmessage describe(b); message describe(begingroup endgroup);\n",
        "known number\nunknown number\nknown string\nunknown truth\nknown nothing\n",
        0,
    ),
    (
        "def whenever(expr c)(text t) = if c: t fi enddef;\nwhenever(1<2)(show 1; show 2); whenever(2<1)(show 3); show 4;\n",
        ">> 1\n>> 2\n>> 4\n",
        0,
    ),
    (
        "def repeat(expr n)(text t) = if n>0: t; repeat(n-1)(t) fi enddef;\ni := 0; repeat(3)(i := i+1; show i);\n",
        ">> 1\n>> 2\n>> 3\n",
        0,
    ),
    (
        "vardef or_one suffix v = if unknown v: v := 1; fi v enddef;\nk = 5; show or_one k, or_one j, j;\n",
        ">> 5\n>> 1\n>> 1\n",
        0,
    ),
    (
        "vardef area(expr a)(text given) = save width; given; a*if known width: width else: 1 fi enddef;\nshow area(5)(), area(5)(width = 3);\n",
        ">> 5\n>> 15\n",
        0,
    ),
    (
        "vardef label suffix s = if str s = \"\": \"none\" else: str s fi enddef; message label; message label a.b;",
        "none\na.b\n",
        0,
    ),
    (
        "vardef times(expr n, s) = if n=0: \"\" else: s & times(n-1, s) fi enddef; show times(3, \"ab\");",
        ">> \"ababab\"\n",
        0,
    ),
    (
        "def assert(expr c)(expr what) = if not c: errmessage \"not so: \" & what; fi enddef;\nassert(1<2)(\"less\");\nassert(2<1)(\"more\");\n",
        "a.mp:3: error 27 UserError \"not so: more\"\n",
        1,
    ),
    (
        "vardef order(suffix a, b) = if a>b: save t; t := a; a := b; b := t; fi enddef;\np = 7; q = 3; order(p, q); show p, q;\n",
        ">> 3\n>> 7\n",
        0,
    ),
    (
        "secondarydef a xor b = (a<>b) enddef;\ntertiarydef a implies b = (not a or b) enddef;\nshow true xor false, true xor true, true implies false, false implies false;\n",
        ">> true\n>> false\n>> false\n>> true\n",
        0,
    ),
];

#[test]
fn branches_are_read_or_skipped(rt: HostRuntime) -> Result<(), Fail> {
    expect_texts(&rt, rt.alloc(), &BRANCHES)
}

#[test]
fn conditions_stand_anywhere(rt: HostRuntime) -> Result<(), Fail> {
    expect_texts(&rt, rt.alloc(), &PLACES)
}

#[test]
fn conditions_are_refused_so(rt: HostRuntime) -> Result<(), Fail> {
    expect_texts(&rt, rt.alloc(), &REFUSED)
}

#[test]
fn macros_choose(rt: HostRuntime) -> Result<(), Fail> {
    expect_texts(&rt, rt.alloc(), &CHOICES)
}
