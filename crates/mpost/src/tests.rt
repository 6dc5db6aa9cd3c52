//! Rows of sources and command lines with what they give, by the objects in memory. The tables stand in the modules.

mod arguments;
mod conditions;
mod idioms;
mod limits;
mod macros;
mod names;
mod operations;
mod operators;
mod outside;
mod suffixes;
mod texts;

use crate::top::mpost_main;
use mp_files::{Contents, FailAt, Kept, MemoryFiles, MemorySink, NullShelf, Sources};
use mp_scaled::{Bytes, Listing, NoMemory};
use std::alloc::{AllocError, Global};
use std::process::Abort;
use std::test::Fail;

const ROOM: usize = 1 << 20;

fn sources(alloc: Global, name: &[u8], text: &[u8]) -> Result<Sources, NoMemory> {
    let mut sources = Listing::new(alloc);
    let name = Bytes::copy_of(alloc, name)?;
    let contents = Contents::Here(Bytes::copy_of(alloc, text)?);
    sources.push(Kept { name, contents })?;
    Ok(sources)
}

/// The words of a line. An empty word stands in it as `_`.
fn words(alloc: Global, line: &str) -> Result<Vec<String>, AllocError> {
    let mut words = Vec::new(alloc);
    for word in line.split_whitespace() {
        let word = if word == "_" { "" } else { word };
        words.push(String::from_str(alloc, word)?)?;
    }
    Ok(words)
}

/// What a call left: what the sink holds, and of the report what is compared.
#[derive(Drop)]
struct Left {
    written: Bytes,
    status: u8,
    steps: u64,
    budget: u64,
    seed: u32,
    fetches: usize,
}

/// Runs a command line over one file `a.mp`, with the fetches and the writes that fail.
fn run_with(
    alloc: Global,
    line: &str,
    text: &str,
    reads: &[u32],
    writes: &[FailAt],
) -> Result<Left, Fail> {
    let words = words(alloc, line)?;
    let mut files = MemoryFiles::new(alloc, sources(alloc, b"a.mp", text.as_bytes())?, reads)?;
    let mut sink = MemorySink::new(alloc, ROOM, writes)?;
    let report = mpost_main(
        alloc,
        words.as_slice(),
        &mut files,
        &mut NullShelf,
        &mut sink,
    );
    Ok(Left {
        written: Bytes::copy_of(alloc, sink.as_slice())?,
        status: report.status,
        steps: report.steps,
        budget: report.budget,
        seed: report.seed,
        fetches: files.asked().len(),
    })
}

fn run_text(alloc: Global, text: &str) -> Result<Left, Fail> {
    run_with(alloc, "--bare a.mp", text, &[], &[])
}

fn expect_texts(rt: &impl Abort, alloc: Global, rows: &[(&str, &str, u8)]) -> Result<(), Fail> {
    for (text, wanted, status) in rows {
        let left = run_text(alloc, text)?;
        assert_eq!(rt; left.written.as_slice(), wanted.as_bytes(), "{text}");
        assert_eq!(rt; left.status, *status, "{text}");
    }
    Ok(())
}
