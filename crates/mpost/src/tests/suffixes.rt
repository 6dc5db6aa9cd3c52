//! Macros of variables that take the rest of a suffix.

/// A source text, what is written and the status.
pub(super) const SUFFIXES: [(&str, &str, u8); 17] = [
    (
        "vardef lab@# = message str @# enddef;\nlab.top; lab1; lab[-1]; i=3; lab.a[i+1]b.c; lab[2]3; lab;\n",
        "top\n1\n[-1]\na4b.c\n2[3]\n\n",
        0,
    ),
    (
        "vardef z@# = 10x@#+y@# enddef;\nx1=2; y1=3; z.a=45; y.a=5; show z1, x.a, z;\n",
        ">> 23\n>> 4\n>> y+10x\n",
        0,
    ),
    (
        "vardef a.b@#(expr e) = str @# enddef; show a.b.c(1), a.b3(2), a.b(3), a.c;",
        ">> \"c\"\n>> \"3\"\n>> \"\"\n>> a.c\n",
        0,
    ),
    (
        "vardef a[]b@# = message str #@; message str @; message str @# enddef;\na3b.c.d;\n",
        "a3\nb\nc.d\n",
        0,
    ),
    (
        "vardef v@# = message str #@; message str @; message str @# enddef; v5; vardef w[]@# = message str @; message str @# enddef; w[-2]x;",
        "\nv\n5\n[-2]\nx\n",
        0,
    ),
    (
        "vardef g@# = x@#a+x@#1+x[2]@# enddef; show g3;",
        ">> x2[3]+x3[1]+x3a\n",
        0,
    ),
    (
        "vardef f@#(expr a) primary p = a*x@#+p enddef; x1=3; show f1(2)4, f1(2)(4)*2, f.y(1)0;",
        ">> 10\n>> 20\n>> x.y\n",
        0,
    ),
    (
        "vardef f@# expr a = a enddef; show f.a(1)+1, f1 2;",
        ">> 2\na.mp:1: error 7 Unexpected \"primary\" \";\"\n",
        1,
    ),
    (
        "vardef lab@# text t = t; message str @# enddef; lab.a message \"x\"; lab 1;",
        "x\na\n1\n",
        0,
    ),
    (
        "vardef z@# = x@# enddef; show z[1+1], z3[1,2];",
        ">> x2\n>> x3\na.mp:1: error 7 Unexpected \";\" \"[\"\n",
        1,
    ),
    (
        "vardef z@#(expr a) = a enddef; show z[1,2];",
        "a.mp:1: error 15 BadArguments\n",
        1,
    ),
    (
        "vardef z@# = x@# enddef; show z[y];",
        "a.mp:1: error 19 BadSubscript\n",
        1,
    ),
    (
        "vardef val@# = @# enddef; x=7; show val.x, 2val3, val[-2], str val.x;",
        ">> 7\n>> 6\n>> -2\n>> \"val.x\"\n",
        0,
    ),
    (
        "vardef n = i := i+1; i enddef; vardef two@# = message str @#; message str @# enddef; i := 4; two[n];",
        "5\n5\n",
        0,
    ),
    (
        "vardef inner@#(expr e) = message str @#; e enddef; vardef outer@# = inner@#(1)+1 enddef; show outer.a.b;",
        "a.b\n>> 2\n",
        0,
    ),
    (
        "vardef z@# = 1 enddef; show z.a; vardef z = 2 enddef; show z.a;",
        ">> 1\n>> 2\na.mp:1: error 7 Unexpected \";\" \"a\"\n",
        1,
    ),
    (
        "vardef w@#(expr a)=x@#+a enddef; x3:=4; show w3(5), x[2+1];",
        ">> 9\n>> 4\n",
        0,
    ),
];
