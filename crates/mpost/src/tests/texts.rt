//! Texts of statements, expressions, groups and definitions.

use super::expect_texts;
use std::test::Fail;

/// A source text, what is written and the status.
const TEXTS: [(&str, &str, u8); 69] = [
    ("show 1/3+2;end", ">> 2.33333\n", 0),
    ("show -1+2, 3/4;\n", ">> 1\n>> 0.75\n", 0),
    (
        "show .1+.2, .33333333333333333999; end\n",
        ">> 0.3\n>> 0.33333\n",
        0,
    ),
    (
        "show 1 2;\n",
        ">> 1\na.mp:1: error 7 Unexpected \";\" \"number\"\n",
        1,
    ),
    ("show 32767.99998+1;\n", "a.mp:1: error 10 Overflow\n", 1),
    ("show 32768;\n", "a.mp:1: error 3 EnormousNumber\n", 1),
    ("show 1/0\n;\n", "a.mp:2: error 11 DivisionByZero\n", 1),
    (
        "show",
        "a.mp:1: error 7 Unexpected \"primary\" \"end of text\"\n",
        1,
    ),
    ("show + -1, 1- +1, --1;\n", ">> -1\n>> 0\n>> --1\n", 0),
    (
        "show 1/2/3, 6/(2), -3/(2), 2(3)*4, 2+3*4;\n",
        ">> 0.16667\n>> 3\n>> -1.5\n>> 24\n>> 14\n",
        0,
    ),
    ("show 1/x;\n", "a.mp:1: error 9 NotKnown /\n", 1),
    (
        "show 1/;\n",
        "a.mp:1: error 7 Unexpected \"primary\" \";\"\n",
        1,
    ),
    ("show x*y;\n", "a.mp:1: error 9 NotKnown *\n", 1),
    (
        "/1;\n",
        "a.mp:1: error 7 Unexpected \"statement\" \"/\"\n",
        1,
    ),
    ("1;\n", "a.mp:1: error 7 Unexpected \"=\" \";\"\n", 1),
    (
        ",;\n",
        "a.mp:1: error 7 Unexpected \"statement\" \",\"\n",
        1,
    ),
    ("x+y=3; x-y=1; show x,y; end", ">> 2\n>> 1\n", 0),
    (
        "x=1; x=1.00098; show x; x=1.00099; end",
        "## redundant -0.00098\n>> 1\na.mp:1: error 13 Inconsistent -0.00099\n",
        1,
    ),
    ("x=x; show x+2y; end", "## redundant 0\n>> 2y+x\n", 0),
    ("show 30000y+30000y; end", ">> 60000y\n", 0),
    ("2x+y=3; show x; end", ">> -0.5y+1.5\n", 0),
    ("show x y;\n", ">> x.y\n", 0),
    (
        "a=(x):=3;\n",
        "a.mp:1: error 7 Unexpected \";\" \":=\"\n",
        1,
    ),
    ("(x):=3;\n", "a.mp:1: error 7 Unexpected \"=\" \":=\"\n", 1),
    (
        "x:=y:=3; x:=x+1; z=w=x; show x,y,z,w;\n",
        ">> 4\n>> 3\n>> 4\n>> 4\n",
        0,
    ),
    ("linecap:=x;\n", "a.mp:1: error 9 NotKnown :=\n", 1),
    (
        "\"a\"=\"a\"; \"a\"=\"b\";\n",
        "## redundant 0\na.mp:1: error 13 Inconsistent 0\n",
        1,
    ),
    (
        "let a=show; a (2)*3; begingroup interim linecap:=2; a linecap; endgroup; a linecap; end",
        ">> 6\n>> 2\n>> 1\n",
        0,
    ),
    ("show begingroup save y; y+1 endgroup; end", ">> ?1+1\n", 0),
    (
        "x=1; begingroup save x; x=2; show x; endgroup; show x; save x; show x;\n",
        ">> 2\n>> 1\n>> x\n",
        0,
    ),
    (
        "show begingroup x=5; endgroup, begingroup x endgroup;\n",
        ">> vacuous\n>> 5\n",
        0,
    ),
    (
        "begingroup 5 endgroup;\n",
        "a.mp:1: error 7 Unexpected \"=\" \";\"\n",
        1,
    ),
    (
        "begingroup 5; endgroup;\n",
        "a.mp:1: error 7 Unexpected \"=\" \";\"\n",
        1,
    ),
    (
        "begingroup end",
        "a.mp:1: error 7 Unexpected \"endgroup\" \"end\"\n",
        1,
    ),
    ("endgroup", "a.mp:1: error 18 LoneEndgroup\n", 1),
    (
        "delimiters [[ ]]; show [[2]]; show (2]];\n",
        ">> 2\na.mp:1: error 7 Unexpected \")\" \"]]\"\n",
        1,
    ),
    (
        "newinternal a,b; a:=3; show a*2,b; show x a;\n",
        ">> 6\n>> 0\n>> x.a\n",
        0,
    ),
    (
        "let a=outer; show a;\n",
        "a.mp:1: error 29 NotBuilt outer\n",
        1,
    ),
    (
        "let x",
        "a.mp:1: error 7 Unexpected \"symbol\" \"end of text\"\n",
        1,
    ),
    (
        "let x 3",
        "a.mp:1: error 7 Unexpected \"=\" \"number\"\n",
        1,
    ),
    (
        "interim 3",
        "a.mp:1: error 7 Unexpected \"symbol\" \"number\"\n",
        1,
    ),
    (
        "interim linecap 3",
        "a.mp:1: error 7 Unexpected \":=\" \"number\"\n",
        1,
    ),
    (
        "message \"hi\"; errhelp \"so\"; \"alone\"; batchmode; show \"a\"; errmessage \"no\";\n",
        "hi\n>> \"a\"\na.mp:1: error 27 UserError \"no\"\n",
        1,
    ),
    ("message 1;\n", "a.mp:1: error 8 WrongType message\n", 1),
    ("show 1\r\n,2\r;end", ">> 1\n>> 2\n", 0),
    ("show\t7\u{c}; % no more\n", ">> 7\n", 0),
    ("\nshow \"a;\n", "a.mp:2: error 2 UnfinishedString\n", 1),
    (
        "show 7; \u{7f}",
        ">> 7\na.mp:1: error 1 BadCharacter 127\n",
        1,
    ),
    ("show 7;end \u{1} 32768 \"", ">> 7\n", 0),
    ("\n\nshow path;", "a.mp:3: error 29 NotBuilt path\n", 1),
    (
        "def f(expr a,b)(suffix s)(text t)\nexpr x of y=\nshow a;\nenddef; show 1;\nf;",
        ">> 1\na.mp:5: error 15 BadArguments\n",
        1,
    ),
    (
        "vardef a.b[]c@#(expr x) primary p:=\nx+p enddef; show 2;\nshow a.b3c.d;",
        ">> 2\na.mp:3: error 15 BadArguments\n",
        1,
    ),
    ("primarydef a ** b=a*b\nenddef; show 3\n** 2;", ">> 6\n", 0),
    (
        "secondarydef a dot b=a enddef; show dot;",
        "a.mp:1: error 7 Unexpected \"primary\" \"dot\"\n",
        1,
    ),
    (
        "tertiarydef a _on_ b=a enddef; show _on_;",
        "a.mp:1: error 7 Unexpected \"primary\" \"_on_\"\n",
        1,
    ),
    (
        "def f=def g=1 enddef;\nenddef; let d=def; d h=2 enddef; show 3;",
        ">> 3\n",
        0,
    ),
    (
        "def f(text enddef)=\nenddef;\nend",
        "a.mp:3: error 6 FileEndedInText\n",
        1,
    ),
    (
        "def f=1 enddef; begingroup save f; f=2; show f; endgroup; f;",
        ">> 2\na.mp:1: error 7 Unexpected \"=\" \";\"\n",
        1,
    ),
    (
        "a.c.d=1; vardef a.c=2 enddef; numeric a.c; show a.c.d;",
        ">> a.c.d\n",
        0,
    ),
    (
        "vardef a=1 enddef;\nvardef a.b=2 enddef;",
        "a.mp:2: error 20 BadDeclaration\n",
        1,
    ),
    (
        "vardef a=1 enddef;\nnumeric a.b;",
        "a.mp:2: error 20 BadDeclaration\n",
        1,
    ),
    (
        "def\n3=x enddef;",
        "a.mp:2: error 7 Unexpected \"symbol\" \"number\"\n",
        1,
    ),
    (
        "def f(3)=x enddef;",
        "a.mp:1: error 7 Unexpected \"symbol\" \"number\"\n",
        1,
    ),
    (
        "def f(expr a\n;b)=x enddef;",
        "a.mp:2: error 7 Unexpected \")\" \";\"\n",
        1,
    ),
    (
        "def f expr a b=x enddef;",
        "a.mp:1: error 7 Unexpected \"=\" \"b\"\n",
        1,
    ),
    (
        "primarydef a b c:=x enddef;",
        "a.mp:1: error 7 Unexpected \"=\" \":=\"\n",
        1,
    ),
    (
        "vardef a3=x enddef;",
        "a.mp:1: error 20 BadDeclaration\n",
        1,
    ),
    (
        "vardef a[2]=x enddef;",
        "a.mp:1: error 20 BadDeclaration\n",
        1,
    ),
    (
        "def f=\n32768 enddef;",
        "a.mp:2: error 3 EnormousNumber\n",
        1,
    ),
];

#[test]
fn texts_give_their_lines(rt: HostRuntime) -> Result<(), Fail> {
    expect_texts(&rt, rt.alloc(), &TEXTS)
}
