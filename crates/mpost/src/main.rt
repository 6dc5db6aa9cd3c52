//! The program: `mpost --bare [--steps N] [--seed N] FILE` runs a MetaPost source and writes what it shows.
//!
//! [`top::mpost_main`] carries the headline: what is written is the meaning of the sources that were read.
//! [`words`] reads the command line, the evaluator below runs the file, and [`deliver`] writes what came of it. The
//! headline stands in specs/Headline.antt; the rules of a text are those of the evaluator.
#![tactic(auto)]

mod deliver;
mod law;
#[cfg(test)]
mod tests;
mod top;
mod words;

use mp_files::{NullShelf, RealFiles, WriterSink};
use std::process::ExitCode;
use std::{env, io};
use top::mpost_main;

/// Where the system does not give the words.
const NO_WORDS: u8 = 7;

/// The words behind the program's name.
fn given_words(rt: &HostRuntime) -> io::Result<Vec<String>> {
    let mut words = Vec::new(rt.alloc());
    for word in env::args(rt)?.skip(1) {
        words.push(word)?;
    }
    Ok(words)
}

fn main(rt: HostRuntime) -> ExitCode {
    let Ok(words) = given_words(&rt) else {
        return ExitCode::from(NO_WORDS);
    };
    let mut files = RealFiles::new(&rt);
    let mut out = WriterSink::new(rt.stdout());
    let report = mpost_main(
        rt.alloc(),
        words.as_slice(),
        &mut files,
        &mut NullShelf,
        &mut out,
    );
    ExitCode::from(report.status)
}
