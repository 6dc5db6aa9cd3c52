//! Calls of macros: this table, and those of the modules `arguments`, `operators`, `suffixes` and `idioms`.

use super::arguments::ARGUMENTS;
use super::expect_texts;
use super::idioms::IDIOMS;
use super::operators::OPERATORS;
use super::suffixes::SUFFIXES;
use std::test::Fail;

/// A source text, what is written and the status.
const MACROS: [(&str, &str, u8); 36] = [
    (
        "vardef nxt=i:=i+1; i enddef; def two(expr a)=a+a enddef; def twot(text a)=a+a enddef; i:=0; show two(nxt); show i; i:=0; show twot(nxt); show i; end",
        ">> 2\n>> 1\n>> 3\n>> 2\n",
        0,
    ),
    (
        "def k(expr a)=begingroup save x; x=7; show x; endgroup; x=2; show a; enddef; k(x+1); end",
        ">> 7\n>> 3\n",
        0,
    ),
    (
        "def t(text x)=enddef;\nt(1,",
        "a.mp:2: error 6 FileEndedInText\n",
        1,
    ),
    (
        "def f(expr a)(expr b)=a-b enddef; show f(3)(1), f(3,1), f(3)(1)-f(1,3);",
        ">> 2\n>> 2\n>> -2\n",
        0,
    ),
    (
        "def f(expr a)(expr b)=a-b enddef;\nshow f 1;",
        "a.mp:2: error 15 BadArguments\n",
        1,
    ),
    (
        "def f(expr a)(expr b)=a-b enddef; show f(1;",
        "a.mp:1: error 15 BadArguments\n",
        1,
    ),
    (
        "def f(expr a)(expr b)=a-b enddef; show f(1)2;",
        "a.mp:1: error 15 BadArguments\n",
        1,
    ),
    (
        "def f(expr a)(expr b)=a-b enddef; show f(1,2,3);",
        "a.mp:1: error 15 BadArguments\n",
        1,
    ),
    (
        "def f(expr a)(expr b)=a-b enddef; show f(1,2;",
        "a.mp:1: error 7 Unexpected \")\" \";\"\n",
        1,
    ),
    (
        "def f(expr a)(expr b)=a-b enddef; show f(,2);",
        "a.mp:1: error 7 Unexpected \"primary\" \",\"\n",
        1,
    ),
    (
        "def f(expr a)=a enddef; show f(1",
        "a.mp:1: error 7 Unexpected \")\" \"end of text\"\n",
        1,
    ),
    (
        "def f(expr a)=a enddef; show f",
        "a.mp:1: error 15 BadArguments\n",
        1,
    ),
    (
        "def f(expr a)=a enddef; show f path;",
        "a.mp:1: error 29 NotBuilt path\n",
        1,
    ),
    (
        "def f(expr a)=a enddef; delimiters << >>; show f<<3>>, f(4>>;",
        ">> 3\na.mp:1: error 7 Unexpected \")\" \">>\"\n",
        1,
    ),
    (
        "def g(suffix s)=s:=s+1 enddef; x.a=3; g(x.a); x2=5; g(x[1+1]); x[-1]=7; g(x[-1]); show x.a,x2,x[-1];",
        ">> 4\n>> 6\n>> 8\n",
        0,
    ),
    (
        "def h(text t)=show t enddef; h(1,\n(2+3)*2,4);",
        ">> 1\n>> 10\n>> 4\n",
        0,
    ),
    (
        "def h(text t)=show t enddef; delimiters << >>; h<<1,(2)>>;",
        ">> 1\n>> 2\n",
        0,
    ),
    (
        "def h(text t)=show t enddef; h(1;2)) 3",
        ">> 1\na.mp:1: error 7 Unexpected \"=\" \")\"\n",
        1,
    ),
    ("show \\1\\+\\2\\;", ">> 3\n", 0),
    (
        "def f(expr a)=f(f(a)) enddef;\nf(1)",
        "a.mp:2: error 28 Limit Nesting 100\n",
        1,
    ),
    (
        "vardef a.b(expr x)=x+1 enddef; show a.b(2)*2, a.c;",
        ">> 6\n>> a.c\n",
        0,
    ),
    (
        "vardef v=3 enddef; show v.x;",
        ">> 3\na.mp:1: error 7 Unexpected \";\" \"x\"\n",
        1,
    ),
    (
        "vardef v[]=message str #@; @ enddef; show v[1+1]*3;",
        "v\n>> 6\n",
        0,
    ),
    (
        "vardef v[](suffix s)=str @#.s enddef; show v1(b);",
        "a.mp:1: error 7 Unexpected \";\" \"@#\"\n",
        1,
    ),
    (
        "vardef v=1 enddef; v:=3;",
        "a.mp:1: error 7 Unexpected \"=\" \":=\"\n",
        1,
    ),
    (
        "def mk(suffix n)(expr v)=def n=v enddef; enddef; mk(five)(2+3) show five;",
        ">> 5\n",
        0,
    ),
    (
        "def nothing= enddef; def f(expr a)=a enddef; show f nothing (3) nothing;",
        ">> 3\n",
        0,
    ),
    (
        "def two(expr a,b)=a*10+b enddef; show two(two(1,2),3);",
        ">> 123\n",
        0,
    ),
    (
        "def neg(expr a)=-a enddef; show neg(3-5), 2neg(1);",
        ">> 2\n>> 1\n",
        0,
    ),
    (
        "def dbl(expr a)=2a enddef; show dbl(x+1), dbl(dbl(x));",
        ">> 2x+2\n>> 4x\n",
        0,
    ),
    (
        "def say(expr a)=message a enddef; say(\"b\"); let tell=say; tell(\"c\");",
        "b\nc\n",
        0,
    ),
    (
        "def f expr a=a enddef; show 1; f 2;",
        ">> 1\na.mp:1: error 7 Unexpected \"=\" \";\"\n",
        1,
    ),
    (
        "vardef z@#=1 enddef;\nz;",
        "a.mp:2: error 7 Unexpected \"=\" \";\"\n",
        1,
    ),
    (
        "def f(expr a)=save a enddef; f(1);",
        "a.mp:1: error 7 Unexpected \"symbol\" \"value\"\n",
        1,
    ),
    (
        "def f(expr a)=numeric x a enddef; f(1);",
        "a.mp:1: error 7 Unexpected \";\" \"value\"\n",
        1,
    ),
    (
        "def q(text t)=begingroup t endgroup enddef; show q(save y; y=4; y+1);",
        ">> 5\n",
        0,
    ),
];

#[test]
fn macros_are_called(rt: HostRuntime) -> Result<(), Fail> {
    let alloc = rt.alloc();
    expect_texts(&rt, alloc, &MACROS)?;
    expect_texts(&rt, alloc, &ARGUMENTS)?;
    expect_texts(&rt, alloc, &OPERATORS)?;
    expect_texts(&rt, alloc, &SUFFIXES)?;
    expect_texts(&rt, alloc, &IDIOMS)
}
