//! Rows of `mp_files`: objects in memory, real files, and writers that falter.

use mp_files::{
    Contents, FailAt, Fetched, Files, Kept, MOST_FETCHED, MemoryFiles, MemoryShelf, MemorySink,
    NullShelf, NullSink, RealFiles, RealShelf, Shelf, Sink, Sources, Stored, SureFiles, WriterSink,
    Written,
};
use mp_scaled::{Bytes, Listing};
use std::alloc::Global;
use std::io::Write;
use std::process::Abort;
use std::test::Fail;
use std::{env, fs, io, process};

/// Puts a source behind the others. One without a text is absent.
fn keep(
    sources: &mut Sources,
    alloc: Global,
    name: &[u8],
    text: Option<&[u8]>,
) -> Result<(), Fail> {
    let name = Bytes::copy_of(alloc, name)?;
    let contents = match text {
        Some(text) => Contents::Here(Bytes::copy_of(alloc, text)?),
        None => Contents::Absent,
    };
    sources.push(Kept { name, contents })?;
    Ok(())
}

/// A text that is too long by one byte.
fn long_text(alloc: Global, length: usize) -> Result<Vec<u8>, Fail> {
    Ok(vec![in alloc; 7u8; length]?)
}

/// An answer that a test can compare.
#[derive(Clone, Copy, Debug, PartialEq, Eq)]
enum Answer<'a> {
    Got(&'a [u8]),
    Absent,
    Failed,
    NoMemory,
}

fn answer_of(fetched: &Fetched) -> Answer<'_> {
    match fetched {
        Fetched::Got(bytes) => Answer::Got(bytes.as_slice()),
        Fetched::Absent => Answer::Absent,
        Fetched::Failed => Answer::Failed,
        Fetched::NoMemory => Answer::NoMemory,
    }
}

fn expect_fetches<F: Files>(
    rt: &impl Abort,
    alloc: Global,
    files: &mut F,
    rows: &[(&[u8], Answer<'_>)],
) {
    for (name, answer) in rows {
        assert_eq!(rt; answer_of(&files.fetch(alloc, *name)), *answer, "{name:?}");
    }
}

fn expect_long_fetch<F: Files>(rt: &impl Abort, alloc: Global, files: &mut F, name: &[u8]) {
    match files.fetch(alloc, name) {
        Fetched::Got(start) => assert_eq!(rt; start.as_slice().len(), MOST_FETCHED),
        _ => panic!(rt; "{name:?}"),
    }
}

fn expect_puts<S: Shelf>(rt: &impl Abort, shelf: &mut S, rows: &[(&[u8], &[u8], Stored)]) {
    for (name, bytes, answer) in rows {
        assert_eq!(rt; shelf.put(*name, *bytes), *answer, "{name:?}");
    }
}

fn expect_writes<S: Sink>(rt: &impl Abort, sink: &mut S, rows: &[(&[u8], Written)]) {
    for (piece, answer) in rows {
        assert_eq!(rt; sink.write_all(*piece), *answer, "{piece:?}");
    }
}

#[test]
fn files_in_memory(rt: HostRuntime) -> Result<(), Fail> {
    let alloc = rt.alloc();
    let mut sources = Listing::new(alloc);
    keep(&mut sources, alloc, b"a", Some(b"1"))?;
    keep(&mut sources, alloc, b"b", None)?;
    keep(&mut sources, alloc, b"a", Some(b"2"))?;
    keep(&mut sources, alloc, b"b", Some(b"3"))?;
    let mut files = MemoryFiles::new(alloc, sources, &[9, 2, 2])?;
    expect_fetches(
        &rt,
        alloc,
        &mut files,
        &[
            (b"a", Answer::Got(b"1")),
            (b"a", Answer::Failed),
            (b"b", Answer::Absent),
            (b"c", Answer::Absent),
        ],
    );
    assert_eq!(rt; files.asked().len(), 4);
    Ok(())
}

#[test]
fn files_that_never_fail(rt: HostRuntime) -> Result<(), Fail> {
    let alloc = rt.alloc();
    let long = long_text(alloc, MOST_FETCHED + 1)?;
    let mut sources = Listing::new(alloc);
    keep(&mut sources, alloc, b"a", Some(long.as_slice()))?;
    let mut files = SureFiles::new(sources);
    expect_long_fetch(&rt, alloc, &mut files, b"a");
    expect_fetches(&rt, alloc, &mut files, &[(b"b", Answer::Absent)]);
    assert_eq!(rt; files.asked().len(), 2);
    Ok(())
}

#[test]
fn sinks_in_memory(rt: HostRuntime) -> Result<(), Fail> {
    let failing = [
        FailAt { call: 2, after: 3 },
        FailAt { call: 2, after: 1 },
        FailAt { call: 4, after: 9 },
    ];
    let mut sink = MemorySink::new(rt.alloc(), 10, &failing)?;
    expect_writes(
        &rt,
        &mut sink,
        &[
            (b"abcd", Written::Written),
            (b"efgh", Written::Failed),
            (b"ijkl", Written::Failed),
            (b"mnop", Written::Failed),
            (b"", Written::Written),
            (b"q", Written::Failed),
        ],
    );
    assert_eq!(rt; sink.as_slice(), b"abcdefgmno".as_slice());
    expect_writes(&rt, &mut NullSink, &[(b"ab", Written::Written)]);
    Ok(())
}

#[test]
fn shelves_in_memory(rt: HostRuntime) -> Result<(), Fail> {
    let mut shelf = MemoryShelf::new(rt.alloc(), 2, 10, &[2])?;
    expect_puts(
        &rt,
        &mut shelf,
        &[
            (b"a.1", b"xy", Stored::Stored),
            (b"b", b"", Stored::Failed),
            (b"c", b"12345", Stored::Failed),
            (b"c", b"1234", Stored::Stored),
            (b"d", b"", Stored::Failed),
        ],
    );
    assert_eq!(rt; shelf.len(), 2);
    assert_eq!(rt; shelf.get(0), Some((b"a.1".as_slice(), b"xy".as_slice())));
    assert_eq!(rt; shelf.get(1), Some((b"c".as_slice(), b"1234".as_slice())));
    assert_eq!(rt; shelf.get(2), None);
    expect_puts(&rt, &mut NullShelf, &[(b"a", b"b", Stored::Stored)]);
    Ok(())
}

/// A file of the system is absent, stored, fetched, too long, and removed.
#[test]
fn real_files(rt: HostRuntime) -> Result<(), Fail> {
    let alloc = rt.alloc();
    let name = format!(in alloc; "mp_files-{}.mp", process::id(rt.process()))?;
    let path = env::temp_dir(&rt)?.join(alloc, name.as_str())?;
    let path = path.as_str();
    let long = long_text(alloc, MOST_FETCHED + 1)?;

    let mut shelf = RealShelf::new(&rt);
    let mut files = RealFiles::new(&rt);
    expect_fetches(&rt, alloc, &mut files, &[(path.as_bytes(), Answer::Absent)]);
    expect_puts(
        &rt,
        &mut shelf,
        &[(path.as_bytes(), b"x=1;", Stored::Stored)],
    );
    expect_fetches(
        &rt,
        alloc,
        &mut files,
        &[(path.as_bytes(), Answer::Got(b"x=1;"))],
    );
    expect_puts(
        &rt,
        &mut shelf,
        &[(path.as_bytes(), long.as_slice(), Stored::Stored)],
    );
    expect_long_fetch(&rt, alloc, &mut files, path.as_bytes());
    fs::remove_file(&rt, path)?;
    assert_eq!(rt; (files.faults(), shelf.faults()), (0, 0));
    Ok(())
}

#[test]
fn names_that_no_real_file_has(rt: HostRuntime) -> Result<(), Fail> {
    let mut shelf = RealShelf::new(&rt);
    let mut files = RealFiles::new(&rt);
    expect_fetches(
        &rt,
        rt.alloc(),
        &mut files,
        &[(b".", Answer::Failed), (b"\xff", Answer::Failed)],
    );
    expect_puts(
        &rt,
        &mut shelf,
        &[(b".", b"", Stored::Failed), (b"\xff", b"", Stored::Failed)],
    );
    assert_eq!(rt; (files.faults(), shelf.faults()), (2, 2));
    Ok(())
}

/// Takes as many bytes a call as its steps say, the last step first, and fails where a step says none.
#[derive(Drop)]
struct Faltering {
    steps: Vec<Option<usize>>,
}

impl Write for Faltering {
    fn write(&mut self, buf: &[u8]) -> io::Result<usize> {
        match self.steps.pop() {
            Some(Some(most)) => Ok(most.min(buf.len())),
            _ => Err(io::Error::from(io::ErrorKind::StorageFull)),
        }
    }

    fn flush(&mut self) -> io::Result<()> {
        Ok(())
    }
}

#[test]
fn sinks_over_writers(rt: HostRuntime) -> Result<(), Fail> {
    let rows: [(&[Option<usize>], Written, u64); 4] = [
        (&[Some(9), Some(1), Some(2)], Written::Written, 0),
        (&[Some(9), Some(0), Some(2)], Written::Failed, 1),
        (&[Some(9), None, Some(2)], Written::Failed, 1),
        (&[Some(1), Some(2), Some(2)], Written::Failed, 1),
    ];
    for (steps, answer, faults) in rows {
        let steps = Vec::from_slice(rt.alloc(), steps)?;
        let mut sink = WriterSink::new(Faltering { steps });
        expect_writes(&rt, &mut sink, &[(b"abcdef", answer)]);
        assert_eq!(rt; sink.faults(), faults);
    }
    let long = long_text(rt.alloc(), MOST_FETCHED + 1)?;
    let steps = Vec::from_slice(rt.alloc(), &[Some(MOST_FETCHED), Some(1)])?;
    let mut sink = WriterSink::new(Faltering { steps });
    expect_writes(&rt, &mut sink, &[(long.as_slice(), Written::Written)]);
    let mut sink = WriterSink::new(rt.stdout());
    expect_writes(&rt, &mut sink, &[(b">> 1\n", Written::Written)]);
    Ok(())
}
