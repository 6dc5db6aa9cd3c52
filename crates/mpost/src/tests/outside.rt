//! Command lines, and reads and writes that fail.

use super::{ROOM, run_with};
use crate::deliver::{Delivered, deliver};
use mp_eval::Figure;
use mp_files::{FailAt, MemoryShelf, MemorySink};
use mp_scaled::{Bytes, NoMemory};
use std::alloc::Global;
use std::process::Abort;
use std::test::Fail;

/// A command line that is accepted, and the steps and the seed that it asks for.
const ACCEPTED: [(&str, u64, u32); 18] = [
    ("--bare a.mp", 10_000_000, 0),
    ("--bare a", 10_000_000, 0),
    ("--bare --steps 9 a.mp", 9, 0),
    ("--steps 9 --bare a.mp", 9, 0),
    ("--bare --seed 8 a.mp", 10_000_000, 8),
    ("--seed 8 --bare a.mp", 10_000_000, 8),
    ("--bare --steps 9 --seed 8 a.mp", 9, 8),
    ("--bare --seed 8 --steps 9 a.mp", 9, 8),
    ("--steps 9 --bare --seed 8 a.mp", 9, 8),
    ("--steps 9 --seed 8 --bare a.mp", 9, 8),
    ("--seed 8 --bare --steps 9 a.mp", 9, 8),
    ("--seed 8 --steps 9 --bare a.mp", 9, 8),
    ("--bare --steps 0010 a.mp", 10, 0),
    ("--bare --steps 0000000004 a.mp", 4, 0),
    ("--bare --steps 1000000000 a.mp", 1_000_000_000, 0),
    ("--bare --seed 0 a.mp", 10_000_000, 0),
    ("--bare --seed 0000000000 a.mp", 10_000_000, 0),
    ("--bare --seed 0268435455 a.mp", 10_000_000, 268_435_455),
];

#[test]
fn options_ask_for_steps_and_a_seed(rt: HostRuntime) -> Result<(), Fail> {
    for (line, budget, seed) in &ACCEPTED {
        let left = run_with(rt.alloc(), line, "show 1;end", &[], &[])?;
        assert_eq!(rt; left.written.as_slice(), b">> 1\n".as_slice(), "{line}");
        assert_eq!(rt;
            (left.status, left.budget, left.seed),
            (0, *budget, *seed),
            "{line}"
        );
    }
    Ok(())
}

/// A command line that is refused, and the word.
const REFUSED: [(&str, u32); 59] = [
    // a word is missing
    ("", 1),
    ("--bare", 2),
    ("--steps", 2),
    ("--seed", 2),
    ("--steps 9", 3),
    ("--bare --steps", 3),
    ("--bare --seed", 3),
    ("--bare --steps 9 --seed 8", 6),
    // no `--bare`
    ("a.mp", 1),
    ("--steps 9 a.mp", 3),
    ("--seed 8 a.mp", 3),
    ("--steps 9 --seed 8 a.mp", 5),
    // an option stands twice, or is none
    ("--bare --bare a.mp", 2),
    ("--steps 9 --steps 9 --bare a.mp", 3),
    ("--seed 8 --bare --seed 8 a.mp", 4),
    ("--bare --steps 9 --seed 8 --bare a.mp", 6),
    ("--help", 1),
    ("--stats --bare a.mp", 1),
    ("--bare --stats a.mp", 2),
    ("--bare --gen 2", 2),
    ("--bare --paints a.mp", 2),
    ("--bare --svg a.mp", 2),
    ("--Bare a.mp", 1),
    ("-bare a.mp", 1),
    ("--steps=9 --bare a.mp", 1),
    ("--bare -- a.mp", 2),
    // no file
    ("_", 1),
    ("--bare _", 2),
    ("--bare _ a.mp", 2),
    ("--bare -", 2),
    ("--bare -a", 2),
    ("--bare \u{e9}", 2),
    // behind the file
    ("--bare a.mp b.mp", 3),
    ("--bare a.mp _", 3),
    ("--bare a.mp --bare", 3),
    ("--bare a.mp --steps 9", 3),
    ("--bare a.mp --seed 8", 3),
    ("--bare --steps 9 --seed 8 a.mp b.mp", 7),
    // no number
    ("--steps a.mp", 2),
    ("--bare --steps --seed 8 a.mp", 3),
    ("--bare --steps _ a.mp", 3),
    ("--bare --steps +9 a.mp", 3),
    ("--bare --steps -9 a.mp", 3),
    ("--bare --steps 9. a.mp", 3),
    ("--bare --steps 9x a.mp", 3),
    ("--bare --steps \u{664} a.mp", 3),
    ("--bare --seed + a.mp", 3),
    ("--bare --seed -1 a.mp", 3),
    // of 11 digits
    ("--bare --steps 00000000009 a.mp", 3),
    ("--bare --seed 00000000000 a.mp", 3),
    // too small or too great
    ("--steps 0 a.mp", 2),
    ("--bare --steps 0000000000 a.mp", 3),
    ("--bare --steps 1000000001 a.mp", 3),
    ("--bare --steps 4294967305 a.mp", 3),
    ("--bare --steps 9999999999 a.mp", 3),
    ("--bare --seed 268435456 a.mp", 3),
    ("--bare --seed 4294967296 a.mp", 3),
    ("--bare --seed 9999999999 a.mp", 3),
    ("--seed 268435456 --steps 0 a.mp", 2),
];

#[test]
fn words_are_refused(rt: HostRuntime) -> Result<(), Fail> {
    let alloc = rt.alloc();
    for (line, word) in &REFUSED {
        let left = run_with(alloc, line, "show 1;end", &[], &[])?;
        let wanted = format!(in alloc; "mpost: usage: word {word}\n")?;
        assert_eq!(rt; left.written.as_slice(), wanted.as_bytes(), "{line}");
        assert_eq!(rt; left.status, 2, "{line}");
        assert_eq!(rt;
            (left.steps, left.budget, left.seed, left.fetches),
            (0, 0, 0, 0),
            "{line}"
        );
    }
    Ok(())
}

/// A command line, what is written, the status and the steps.
const LINES: [(&str, &str, u8, u64); 6] = [
    (
        "--bare none",
        "mpost:0: error 4 NoSuchFile \"none.mp\"\n",
        1,
        0,
    ),
    (
        "--bare x.y/none",
        "mpost:0: error 4 NoSuchFile \"x.y/none.mp\"\n",
        1,
        0,
    ),
    ("--bare --steps 5 a.mp", ">> 1\n", 0, 4),
    ("--bare --steps 4 a.mp", ">> 1\n", 0, 4),
    ("--bare --steps 3 a.mp", ">> 1\nmpost: out of steps\n", 3, 3),
    ("--bare --steps 1 a.mp", "mpost: out of steps\n", 3, 1),
];

#[test]
fn command_lines_are_run(rt: HostRuntime) -> Result<(), Fail> {
    for (line, wanted, status, steps) in &LINES {
        let left = run_with(rt.alloc(), line, "show 1;end", &[], &[])?;
        assert_eq!(rt; left.written.as_slice(), wanted.as_bytes(), "{line}");
        assert_eq!(rt;
            (left.status, left.steps, left.fetches),
            (*status, *steps, 1),
            "{line}"
        );
    }
    Ok(())
}

/// A command line over `show 1;end` with a fetch and a write that fail, what is written and the status.
struct Fault {
    line: &'static str,
    read: u32,
    write: FailAt,
    wanted: &'static str,
    status: u8,
}

const FAULTS: [Fault; 6] = [
    Fault {
        line: "--bare a.mp",
        read: 1,
        write: FailAt { call: 9, after: 0 },
        wanted: "mpost: read fault\n",
        status: 4,
    },
    Fault {
        line: "--bare a.mp",
        read: 0,
        write: FailAt { call: 1, after: 3 },
        wanted: ">> ",
        status: 5,
    },
    Fault {
        line: "--bare none",
        read: 0,
        write: FailAt { call: 1, after: 5 },
        wanted: "mpost",
        status: 5,
    },
    Fault {
        line: "--bare a.mp",
        read: 1,
        write: FailAt { call: 1, after: 4 },
        wanted: "mpos",
        status: 5,
    },
    Fault {
        line: "--bare",
        read: 0,
        write: FailAt { call: 1, after: 7 },
        wanted: "mpost: ",
        status: 5,
    },
    // the line of the end is empty, so there is no second write
    Fault {
        line: "--bare a.mp",
        read: 0,
        write: FailAt { call: 2, after: 0 },
        wanted: ">> 1\n",
        status: 0,
    },
];

fn expect_faults(rt: &impl Abort, alloc: Global, rows: &[Fault]) -> Result<(), Fail> {
    for row in rows {
        let left = run_with(alloc, row.line, "show 1;end", &[row.read], &[row.write])?;
        assert_eq!(rt;
            left.written.as_slice(),
            row.wanted.as_bytes(),
            "{}",
            row.line
        );
        assert_eq!(rt; left.status, row.status, "{}", row.line);
    }
    Ok(())
}

#[test]
fn faults_are_counted(rt: HostRuntime) -> Result<(), Fail> {
    expect_faults(&rt, rt.alloc(), &FAULTS)
}

fn one_figure(alloc: Global, name: &[u8]) -> Result<Figure, NoMemory> {
    Ok(Figure {
        name: Bytes::copy_of(alloc, name)?,
        bytes: Bytes::copy_of(alloc, b"%!PS")?,
    })
}

#[test]
fn a_figure_that_fails_ends_the_writing(rt: HostRuntime) -> Result<(), Fail> {
    let alloc = rt.alloc();
    let figures = [one_figure(alloc, b"a.0")?, one_figure(alloc, b"a.1")?];
    let mut shelf = MemoryShelf::new(alloc, 2, 100, &[2])?;
    let mut sink = MemorySink::new(alloc, ROOM, &[])?;
    let at = deliver(b">> 1\n", &figures, b"end\n", &mut shelf, &mut sink);
    assert_eq!(rt; at, Delivered::PutFailed);
    assert_eq!(rt; shelf.len(), 1);
    assert_eq!(rt; sink.as_slice(), b">> 1\nmpost: write fault\n".as_slice());
    Ok(())
}
