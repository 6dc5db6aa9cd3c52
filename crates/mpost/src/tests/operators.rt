//! Operators that macros define.

/// A source text, what is written and the status.
pub(super) const OPERATORS: [(&str, &str, u8); 17] = [
    (
        "primarydef a over b = a/(b) enddef; show 6 over 2, 12 over 2 over 3, 1+6 over 3*2;",
        ">> 3\n>> 2\n>> 5\n",
        0,
    ),
    (
        "primarydef a plus b = a+b enddef;\nprimarydef a add b = (a+b) enddef;\nshow 2*3 plus 4*5, 2*3 add 4*5;\n",
        ">> 26\n>> 50\n",
        0,
    ),
    (
        "secondarydef a mean b = (a+b)/2 enddef; show 1+2 mean 5, 1 mean 3*5, 1 mean 3+4, 8-2 mean 4 mean 1;",
        ">> 4\n>> 8\n>> 6\n>> 3\n",
        0,
    ),
    (
        "tertiarydef a then b = 10a+b enddef; show 1+1 then 2*3, 1 then 2 then 3; x then 2 = 32; show x;",
        ">> 26\n>> 123\n>> 3\n",
        0,
    ),
    (
        "primarydef a p b = (a*b+1) enddef; secondarydef a s b = (a-b) enddef; tertiarydef a t b = (a+10b) enddef; show 2 p 3 s 4 p 5 t 6 s 1, 1+2 p 3*2 s 1+1;",
        ">> 36\n>> 15\n",
        0,
    ),
    (
        "primarydef a p b = (a+b) enddef; show 2x p 3, 1/2x p -3, 2(1) p 2x, x2 p x[1+1];",
        ">> 2x+3\n>> 0.5x-3\n>> 2x+2\n>> 2x2\n",
        0,
    ),
    (
        "primarydef a p b = (a+b) enddef; show 1 p 2/4, 1 p 6/(2), 1 p 2/ /3;",
        ">> 1.5\n>> 3.5\na.mp:1: error 7 Unexpected \"primary\" \"/\"\n",
        1,
    ),
    (
        "secondarydef a minus b = (a-b) enddef; show x minus y, 2x minus x; y=1; show x minus y, y;",
        ">> -y+x\n>> x\n>> x-1\n>> 1\n",
        0,
    ),
    (
        "primarydef a op b = begingroup save x; x=7; a+b endgroup enddef; show x op 1;",
        ">> x+1\n",
        0,
    ),
    (
        "primarydef a op b = a enddef; show op 1;",
        "a.mp:1: error 7 Unexpected \"primary\" \"op\"\n",
        1,
    ),
    (
        "primarydef a op b = a enddef; op 1;",
        "a.mp:1: error 7 Unexpected \"statement\" \"op\"\n",
        1,
    ),
    (
        "primarydef a op b = enddef; show 1 op 2;",
        "a.mp:1: error 7 Unexpected \"primary\" \";\"\n",
        1,
    ),
    (
        "primarydef a op b = a*b enddef; show 3 op 2; tertiarydef a op b = a-b enddef; show 3 op 2*2; def op = + enddef; show 3 op 2; save op; show 3 op 2;",
        ">> 6\n>> -1\n>> 5\n>> 3op2\n",
        0,
    ),
    (
        "primarydef a op b = (a+b) enddef; show 1 op begingroup primarydef a op b = (a*b) enddef; 5 endgroup, 1 op 5; let plus = op; show 2 plus 5, plus;",
        ">> 6\n>> 5\n>> 10\na.mp:1: error 7 Unexpected \"primary\" \"plus\"\n",
        1,
    ),
    (
        "def mk(suffix op)(text body) = primarydef a op b = body enddef enddef;\nmk(o)(a*b);\nbegingroup save o; mk(o)(a-b); show 7 o 2; endgroup;\nshow 7 o 2;\n",
        ">> 5\n>> 14\n",
        0,
    ),
    (
        "def mk(suffix op)(text body) = primarydef a op b = body enddef enddef; mk(o)(a*b); mk(o)(a-b);",
        "a.mp:1: error 15 BadArguments\n",
        1,
    ),
    (
        "begingroup secondarydef a to_ b = b enddef; endgroup; primarydef a o a = 2a enddef; show 1 to_ 2+3, 3 o 4;",
        ">> 5\n>> 8\n",
        0,
    ),
];
