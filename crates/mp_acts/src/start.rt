//! The names of the language, with their meanings, and the state at the start of a run.

ghost use Rattle.std.specs.Prelude.{◌≡◌, map, IfOk, OnOk};
ghost use Rattle.mp_values.specs.Words.{words};
ghost use Rattle.mp_acts.specs.Start.{with_more_names, with_more_internals, delimiter_entries, unbuilt_words, first_internals, word_entry, unbuilt_entry, first_symbols, first_state};

use crate::State;
use mp_scaled::{Bytes, NoMemory, SharedSlice};
use mp_solver::System;
use mp_symbols::Symbols;
use mp_values::{Delimiters, Meaning, UnbuiltWord, Word};
use mp_vartree::Vars;
use std::alloc::Global;

impl State {
    /// The state at the start of a run whose job has that name: the names of the language, no variables, no unknowns, no
    /// events and no lines.
    pub fn new(alloc: Global, job: &[u8]) -> Result<State, NoMemory>
        ensures { IfOk result (λ state. state ≡ first_state job.now) }
    {
        Ok(State {
            alloc,
            symbols: first_symbols(alloc)?,
            variables: Vars::new(alloc),
            slots: Vec::new(alloc),
            system: System::new(alloc),
            count: 0,
            events: Vec::new(alloc),
            lines: Bytes::new(alloc),
            job: SharedSlice::from_vec(Bytes::copy_of(alloc, job)?.into_vec())?,
        })
    }
}

#[tactic(auto, unfolding(crate::specs::Start::first_symbols))]
fn first_symbols(alloc: Global) -> Result<Symbols<Meaning>, NoMemory>
    ensures { IfOk result (λ symbols. symbols ≡ first_symbols) }
{
    let mut symbols = Symbols::new(alloc);
    add_delimiters(&mut symbols)?;
    add_all_words(&mut symbols)?;
    add_all_internals(&mut symbols)?;
    add_all_unbuilt_words(&mut symbols)?;
    Ok(symbols)
}

fn add_all_words(symbols: &mut Symbols<Meaning>) -> Result<(), NoMemory>
    ensures { OnOk result (symbols.new ≡ with_more_names symbols.old (map word_entry words)) }
{
    add_words(symbols, &Word::ALL)
}

fn add_all_internals(symbols: &mut Symbols<Meaning>) -> Result<(), NoMemory>
    ensures { OnOk result (symbols.new ≡ with_more_internals symbols.old first_internals) }
{
    add_internals(symbols, &INTERNALS)
}

fn add_all_unbuilt_words(symbols: &mut Symbols<Meaning>) -> Result<(), NoMemory>
    ensures { OnOk result (symbols.new ≡ with_more_names symbols.old
        (map unbuilt_entry unbuilt_words)) }
{
    add_unbuilt_words(symbols, &DRAWING_WORDS)?;
    add_unbuilt_words(symbols, &CONTROL_WORDS)?;
    add_unbuilt_words(symbols, &OPERAND_WORDS)?;
    add_unbuilt_words(symbols, &OPERATOR_WORDS)?;
    add_unbuilt_words(symbols, &OTHER_WORDS)?;
    Ok(())
}

/// The parentheses are the symbols 0 and 1.
#[tactic(auto, unfolding(crate::specs::Start::with_entries))]
fn add_delimiters(symbols: &mut Symbols<Meaning>) -> Result<(), NoMemory>
    ensures { OnOk result (symbols.new ≡ with_more_names symbols.old delimiter_entries) }
{
    let pair = Delimiters { left: 0, right: 1 };
    symbols.number_of(b"(", Meaning::Left(pair))?;
    symbols.number_of(b")", Meaning::Right(pair))?;
    Ok(())
}

fn add_words(symbols: &mut Symbols<Meaning>, words: &[Word]) -> Result<(), NoMemory>
    ensures { OnOk result (symbols.new ≡ with_more_names symbols.old (map word_entry words.now)) }
{
    'words: for word in words {
        symbols.number_of(word.name(), Meaning::Word(*word))?;
    }
    Ok(())
}

fn add_internals(
    symbols: &mut Symbols<Meaning>,
    internals: &[(&'static [u8], i32)],
) -> Result<(), NoMemory>
    ensures { OnOk result (symbols.new ≡ with_more_internals symbols.old
        (map (λ x. (x.0.now, x.1)) internals.now)) }
{
    'internals: for (name, value) in internals {
        let k = symbols.new_internal(*value)?;
        symbols.number_of(name, Meaning::Internal(k))?;
    }
    Ok(())
}

fn add_unbuilt_words(
    symbols: &mut Symbols<Meaning>,
    words: &[&'static [u8]],
) -> Result<(), NoMemory>
    ensures { OnOk result (symbols.new ≡ with_more_names symbols.old
        (map (λ x. unbuilt_entry x.now) words.now)) }
{
    'words: for word in words {
        symbols.number_of(word, Meaning::Unbuilt(UnbuiltWord::new(word)))?;
    }
    Ok(())
}

// The words of the language that are not built.

/// Types, pictures and figures.
const DRAWING_WORDS: [&[u8]; 20] = [
    b"pair",
    b"color",
    b"rgbcolor",
    b"transform",
    b"path",
    b"pen",
    b"picture",
    b"addto",
    b"contour",
    b"doublepath",
    b"also",
    b"withpen",
    b"withcolor",
    b"dashed",
    b"clip",
    b"to",
    b"setbounds",
    b"shipout",
    b"special",
    b"randomseed",
];

/// Loops and files.
const CONTROL_WORDS: [&[u8]; 11] = [
    b"for",
    b"forsuffixes",
    b"forever",
    b"endfor",
    b"exitif",
    b"step",
    b"until",
    b"input",
    b"endinput",
    b"scantokens",
    b"expandafter",
];

/// Operands, and operators that stand in front of one.
const OPERAND_WORDS: [&[u8]; 40] = [
    b"nullpicture",
    b"pencircle",
    b"cycle",
    b"odd",
    b"floor",
    b"sqrt",
    b"mlog",
    b"mexp",
    b"sind",
    b"cosd",
    b"uniformdeviate",
    b"angle",
    b"xpart",
    b"ypart",
    b"xxpart",
    b"xypart",
    b"yxpart",
    b"yypart",
    b"redpart",
    b"greenpart",
    b"bluepart",
    b"decimal",
    b"char",
    b"ASCII",
    b"oct",
    b"hex",
    b"length",
    b"reverse",
    b"makepath",
    b"llcorner",
    b"lrcorner",
    b"ulcorner",
    b"urcorner",
    b"fontsize",
    b"point",
    b"precontrol",
    b"postcontrol",
    b"subpath",
    b"substring",
    b"directiontime",
];

/// Operators between two operands, and the signs of paths.
const OPERATOR_WORDS: [&[u8]; 18] = [
    b"infont",
    b"++",
    b"+-+",
    b"scaled",
    b"xscaled",
    b"yscaled",
    b"slanted",
    b"rotated",
    b"zscaled",
    b"shifted",
    b"transformed",
    b"..",
    b"tension",
    b"controls",
    b"atleast",
    b"curl",
    b"{",
    b"}",
];

/// All others.
const OTHER_WORDS: [&[u8]; 59] = [
    b"btex",
    b"verbatimtex",
    b"makepen",
    b"outer",
    b"inner",
    b"quote",
    b"readfrom",
    b"write",
    b"arclength",
    b"arctime",
    b"turningnumber",
    b"normaldeviate",
    b"penoffset",
    b"within",
    b"readstring",
    b"closefrom",
    b"nullpen",
    b"showtoken",
    b"showvariable",
    b"showdependencies",
    b"showstats",
    b"outputtemplate",
    b"outputformat",
    b"withprescript",
    b"withpostscript",
    b"withoutcolor",
    b"withgreyscale",
    b"withrgbcolor",
    b"withcmykcolor",
    b"cmykcolor",
    b"greypart",
    b"cyanpart",
    b"magentapart",
    b"yellowpart",
    b"blackpart",
    b"colormodel",
    b"filled",
    b"stroked",
    b"textual",
    b"clipped",
    b"bounded",
    b"pathpart",
    b"penpart",
    b"dashpart",
    b"textpart",
    b"fontpart",
    b"intersectiontimes",
    b"fontmapfile",
    b"fontmapline",
    b"charlist",
    b"ligtable",
    b"extensible",
    b"headerbyte",
    b"fontdimen",
    b"day",
    b"month",
    b"year",
    b"time",
    b"dump",
];

/// The internals with their first values, in units of 2^-16.
const INTERNALS: [(&[u8], i32); 21] = [
    (b"linecap", 65536),
    (b"linejoin", 65536),
    (b"miterlimit", 655360),
    (b"charcode", 0),
    (b"prologues", 0),
    (b"truecorners", 0),
    (b"warningcheck", 0),
    (b"showstopping", 0),
    (b"pausing", 0),
    (b"tracingonline", 0),
    (b"tracingtitles", 0),
    (b"tracingequations", 0),
    (b"tracingcapsules", 0),
    (b"tracingchoices", 0),
    (b"tracingspecs", 0),
    (b"tracingcommands", 0),
    (b"tracingrestores", 0),
    (b"tracingmacros", 0),
    (b"tracingoutput", 0),
    (b"tracingstats", 0),
    (b"tracinglostchars", 0),
];
