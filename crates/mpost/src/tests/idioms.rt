//! Macros such as users write.

/// A source text, what is written and the status.
pub(super) const IDIOMS: [(&str, &str, u8); 16] = [
    (
        "def gobble primary g = enddef; def hide(text t) = gobble begingroup t; endgroup enddef; show 1+hide(y := 2)3*y;",
        ">> 7\n",
        0,
    ),
    (
        "vardef whatever = save ?; ? enddef;\nshow whatever, whatever; x=whatever; show x, whatever-whatever;\n",
        ">> ?1\n>> ?2\n>> x\n>> -?6+?5\n",
        0,
    ),
    (
        "def line(expr t, a,b, c,d) = x=a+t*(c-a); y=b+t*(d-b) enddef;\nvardef whatever = save ?; ? enddef;\nline(whatever, 0,0, 4,4); line(whatever, 0,4, 4,0);\nshow x, y;\n",
        ">> 2\n>> 2\n",
        0,
    ),
    (
        "vardef incr suffix $ = $:=$+1; $ enddef;\nvardef decr suffix $ = $:=$-1; $ enddef;\nn=5; show incr n, 2incr n, decr n;\na2=9; i=2; show incr a[i], a2;\n",
        ">> 6\n>> 14\n>> 6\n>> 10\n>> 10\n",
        0,
    ),
    (
        "vardef swap(suffix a, b) = save t; t:=a; a:=b; b:=t enddef;\nx1=1; x2=2; i=1; swap(x[i], x[i+1]); show x1, x2;\n",
        ">> 2\n>> 1\n",
        0,
    ),
    (
        "def options(text t) = def _op_ = t enddef enddef;\ndef put expr e = show e _op_ enddef;\noptions(+1); put 3; options(*2, 9); put 3; options(); put 3;\n",
        ">> 4\n>> 6\n>> 9\n>> 3\n",
        0,
    ),
    (
        "vardef area(expr a)(text given) = save width; width := 1; given; a*width enddef;\nshow area(5)(), area(5)(width := 3);\n",
        ">> 5\n>> 15\n",
        0,
    ),
    (
        "tertiarydef a approx b = begingroup save d; d=a-b; d*d endgroup enddef; show 3+1 approx 2*3, x approx x;",
        ">> 4\n>> 0\n",
        0,
    ),
    (
        "vardef cube(expr x) = save s; s=x*x; s*x enddef; s=5; show cube(3), s;",
        ">> 27\n>> 5\n",
        0,
    ),
    (
        "vardef percent expr p of q = p*q/100 enddef; show percent 10+15 of 80, percent 5 of(20+20)*2;",
        ">> 20\n>> 4\n",
        0,
    ),
    (
        "vardef conv.in(expr v) = 72v enddef;\nvardef conv.pt(expr v) = v enddef;\ndef size(suffix unit)(expr v) = conv.unit(v) enddef;\nshow size(in)(2), size(pt)(2);\n",
        ">> 144\n>> 2\n",
        0,
    ),
    (
        "def begin_part = begingroup save x; enddef;\ndef end_part = endgroup enddef;\nx=1; begin_part x=2; show x; end_part; show x;\n",
        ">> 2\n>> 1\n",
        0,
    ),
    (
        "vardef with_cap(expr c)(text t) = interim linecap := c; t enddef; show with_cap(5)(linecap+1), linecap;",
        ">> 6\n>> 1\n",
        0,
    ),
    (
        "def dozen = *12 enddef; let relax = \\; show 2dozen, 1/2dozen relax;",
        ">> 24\n>> 6\n",
        0,
    ),
    (
        "def define(suffix n)(expr v) = def n = v enddef enddef; define(two)(1+1); define(four)(two*two); show four, 2four;",
        ">> 4\n>> 8\n",
        0,
    ),
    (
        "string s[]; vardef caption@# = s@# enddef; s1=\"one\"; message caption1; caption2=\"two\"; message s2;",
        "one\ntwo\n",
        0,
    ),
];
