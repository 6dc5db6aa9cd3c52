//! Arguments without delimiters, and what is put back behind the body.

/// A source text, what is written and the status.
pub(super) const ARGUMENTS: [(&str, &str, u8); 38] = [
    (
        "def double(expr a) = 2a enddef;\nvardef square primary a = a*a enddef;\nsecondarydef a mean b = (a+b)/2 enddef;\nshow double(3), square 3, 1 mean 2;\n",
        ">> 6\n>> 9\n>> 1.5\n",
        0,
    ),
    (
        "def e expr a = a*a enddef;\ndef t tertiary a = a*a enddef;\ndef s secondary a = a*a enddef;\ndef p primary a = a*a enddef;\nshow e 2*3+1, t 2*3+1, s 2*3+1, p 2*3+1, p -2;\n",
        ">> 49\n>> 49\n>> 37\n>> 13\n>> 4\n",
        0,
    ),
    (
        "tertiarydef a avg b = (a+b)/2 enddef; def e expr a = 3a enddef; def t tertiary a = 3a enddef; show e 1 avg 3, t 1+1 avg 4;",
        ">> 6\n>> 5\n",
        0,
    ),
    (
        "def f expr a = 2a enddef; def g(expr a) = 2a enddef; show f(3)+1, g(3)+1;",
        ">> 8\n>> 7\n",
        0,
    ),
    (
        "def f primary a = show a; message enddef; def g(expr b) = f x b enddef; f \"a\" \"b\"; g(\"c\");",
        ">> \"a\"\nb\n>> x\nc\n",
        0,
    ),
    (
        "def set suffix v = v enddef; set x.a := 3; def eq tertiary e = e enddef; eq 2y = 4; show x.a, y;",
        ">> 3\n>> 2\n",
        0,
    ),
    (
        "vardef n = i := i+1; i enddef; def two expr a = a+a enddef; i := 0; show two n, i;",
        ">> 2\n>> 1\n",
        0,
    ),
    (
        "def k primary a = begingroup save x; x=7; show x; endgroup; x=2; show a enddef; k x;",
        ">> 7\n>> 2\n",
        0,
    ),
    (
        "def g expr t of p = 10t+p enddef; show g 1+1 of 3+4, g 2 of x;",
        ">> 27\n>> x+20\n",
        0,
    ),
    (
        "def g expr t of p = t+p enddef; show g 1, 2;",
        "a.mp:1: error 7 Unexpected \"of\" \",\"\n",
        1,
    ),
    (
        "def g expr t of p = t+p enddef; show g 1 of;",
        "a.mp:1: error 7 Unexpected \"primary\" \";\"\n",
        1,
    ),
    (
        "def f expr a = a enddef; show f;",
        "a.mp:1: error 7 Unexpected \"primary\" \";\"\n",
        1,
    ),
    (
        "def inc suffix v = v := v+1; enddef; x2=5; i=1; inc x[i+1] show x2; inc x2; show x[2];",
        ">> 6\n>> 7\n",
        0,
    ),
    (
        "def shows suffix v = show v enddef; x=1; shows x",
        ">> 1\n",
        0,
    ),
    (
        "def incr suffix v = v := v+1 enddef; j := 1; incr(j);",
        "a.mp:1: error 7 Unexpected \"statement\" \":=\"\n",
        1,
    ),
    (
        "def s suffix a = str a enddef; show s x.a 2 b, s(x);",
        ">> \"x.a2b\"\n>> \"\"\na.mp:1: error 7 Unexpected \";\" \"(\"\n",
        1,
    ),
    (
        "def s suffix a = str a enddef; show s x[1,2];",
        "a.mp:1: error 7 Unexpected \"]\" \",\"\n",
        1,
    ),
    (
        "def inc suffix v = v := v+1; enddef; inc x inc y;",
        "a.mp:1: error 7 Unexpected \"statement\" \":=\"\n",
        1,
    ),
    (
        "def f(expr a)(suffix s) expr b = s := 10a+b enddef; f(1)(x) 2+3; f(4,y)5; show x, y;",
        ">> 15\n>> 45\n",
        0,
    ),
    (
        "def f(expr a) primary b = a-b enddef; show f(5)(2), f(5)(2)*3, f 1;",
        ">> 3\n>> -1\na.mp:1: error 15 BadArguments\n",
        1,
    ),
    (
        "vardef half primary p = p/2 enddef; def twice primary p = p+p enddef; show half 3*2, 2half 5, 2twice 5;",
        ">> 3\n>> 5\n>> 15\n",
        0,
    ),
    (
        "def f primary a = a enddef; show f 6/(2), f 6/+2, f 3/4, f 1/ /2;",
        ">> 3\n>> 3\n>> 0.75\na.mp:1: error 7 Unexpected \"primary\" \"/\"\n",
        1,
    ),
    (
        "def both = 1, 2 enddef; def f expr a = show a enddef; f both;",
        ">> 1\n>> 2\n",
        0,
    ),
    (
        "def t text x = show x enddef; t\n1,\n2\n; show 3;",
        ">> 1\n>> 2\n>> 3\n",
        0,
    ),
    (
        "def t text x = show 0 x; enddef; begingroup t ,4 endgroup; t; t ,5 end",
        ">> 0\n>> 4\n>> 0\n>> 0\n>> 5\n",
        0,
    ),
    (
        "def t text x = show x enddef; t begingroup y=2; y+1 endgroup*2, begingroup begingroup z=7; endgroup; z endgroup; show y;",
        ">> 6\n>> 7\n>> 2\n",
        0,
    ),
    (
        "def t text x = show 1; x enddef; t begingroup end endgroup; show 2;",
        ">> 1\na.mp:1: error 7 Unexpected \"endgroup\" \"end\"\n",
        1,
    ),
    (
        "let semi=; semi let {{=begingroup semi let }}=endgroup semi def t text x = show x enddef semi t {{ y=2; y }} semi show 3 semi",
        ">> 2\n>> 3\n",
        0,
    ),
    (
        "def semi = ; enddef; def t text x = show x; show 9 enddef; t 1 semi show 2;",
        ">> 1\n>> 2\n>> 9\n",
        0,
    ),
    (
        "def twice text t = t; t enddef; i := 0; twice i := i+1; show i;",
        ">> 2\n",
        0,
    ),
    (
        "def f(expr n) text t = show n; t; show n enddef; f(1) message \"a\"; f(2);",
        ">> 1\na\n>> 1\n>> 2\n>> 2\n",
        0,
    ),
    (
        "vardef sum text t = save s; s := 0; t; s enddef;\ndef add expr e = s := s+e enddef;\nshow 2sum begingroup add 3; add 4 endgroup;\n",
        ">> 14\n",
        0,
    ),
    (
        "def t text x = enddef;\nt 1,",
        "a.mp:2: error 6 FileEndedInText\n",
        1,
    ),
    (
        "def t text x = enddef;\nt begingroup 1;\nend",
        "a.mp:3: error 6 FileEndedInText\n",
        1,
    ),
    (
        "def say = message enddef; def greet = say \"a\"; enddef; greet greet",
        "a\na\n",
        0,
    ),
    (
        "def sum(expr a, b) = a+b enddef;\ndef total(expr a, b) = (a+b) enddef;\nshow 2sum(1,2), 2total(1,2);\n",
        ">> 4\n>> 6\n",
        0,
    ),
    (
        "def g(suffix s) = s := s+1 enddef;\nx.a=3; g(x.a); x2=5; g(x[1+1]); show x.a, x2;\nvardef nxt = i := i+1; i enddef;\ndef two(expr a) = a+a enddef; i := 0; show two(nxt), i;\ndef twot(text a) = a+a enddef; i := 0; show twot(nxt), i;\n",
        ">> 4\n>> 6\n>> 2\n>> 1\n>> 3\n>> 2\n",
        0,
    ),
    (
        "def f = x enddef show 1;",
        "a.mp:1: error 7 Unexpected \";\" \"show\"\n",
        1,
    ),
];
