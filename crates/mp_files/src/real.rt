//! Real files and any writer of std. They tell nothing, and what the system does is trusted. What is made of what the
//! system answers is said by `fetch_from`, `store_in` and `write_whole`, for any reader and writer.

ghost use Rattle.std.specs.Prelude.{◌≡◌, ◌≢◌, ◌≤◌, length, None, IfOk, IfErr};
ghost use Rattle.std.specs.Io.KnownBytes.{Appends};
ghost use Rattle.std.specs.IoError.{error_kind};
ghost use Rattle.mp_files.specs.Streams.{IsStartOf, IsBounded, GivesStart, fetched_of, HoldsMore, AppendsStart, writer_seen};
ghost use Rattle.mp_files.specs.Counts.{next_count};
ghost use Rattle.mp_files.specs.Outside.{FetchGives, PutGives, WriteGives, faults_after};
ghost use Rattle.mp_files.specs.declared.outside.TheConstants.{MOST_FETCHED};

use crate::{Fetched, Files, MOST_FETCHED, Shelf, Sink, Stored, Written};
use mp_scaled::Bytes;
use std::alloc::Global;
use std::io::{ErrorKind, Read, Write};
use std::marker::Model;
use std::{fs, io, rt, str};

/// Sources that are files of the system, named from the folder that the program runs in.
///
/// Contracts see the count of faults.
#[derive(Drop)]
pub struct RealFiles<R: rt::Files + Drop> {
    system: R,
    faults: u64,
}

impl<R: rt::Files + Drop> Model for RealFiles<R> {
    ghost use Rattle.std.specs.Prelude.{ℕ};

    ghost Value = { ℕ };

    ghost view = { λ f. f.faults };
}

impl<R: rt::Files + Drop> RealFiles<R> {
    /// The files of that system, with no fault.
    pub fn new(system: R) -> RealFiles<R>
        ensures { result ≡ 0 }
    {
        RealFiles { system, faults: 0 }
    }

    /// The count of faults.
    pub fn faults(&self) -> u64
        ensures { result ≡ self.now }
    {
        self.faults
    }
}

impl<R: rt::Files + Drop> Files for RealFiles<R> {
    ghost seen = { λ faults. record { faults = faults; told = None } };

    fn fetch(&mut self, alloc: Global, name: &[u8]) -> Fetched
        ensures gives { FetchGives (record { faults = self.old; told = None }) (record { faults = self.new; told = None }) name.now result }
        ensures counted { self.new ≡ faults_after self.old result }
    {
        let fetched = read_file(&self.system, alloc, name);
        if let Fetched::Failed = fetched {
            self.faults = self.faults.saturating_add(1);
        }
        fetched
    }
}

/// A name that is no text names no file that could be asked for.
fn read_file<R: rt::Files>(system: &R, alloc: Global, name: &[u8]) -> Fetched
    ensures { IsBounded result }
{
    match str::from_utf8(name) {
        Ok(path) => fetch_from(fs::open(system, path), alloc),
        Err(_) => Fetched::Failed,
    }
}

/// What is fetched from a file, or from the refusal to open it.
fn fetch_from<R: Read + Drop>(opened: io::Result<R>, alloc: Global) -> Fetched
    ensures opened { IfOk opened (λ file. GivesStart (R.remaining file) result) }
    ensures refused { IfErr opened (λ refusal. result ≡ fetched_of (error_kind refusal)) }
    ensures bounded { IsBounded result }
{
    let file = match opened {
        Ok(file) => file,
        Err(refusal) if refusal.kind() == ErrorKind::NotFound => return Fetched::Absent,
        Err(refusal) => return unread(&refusal),
    };
    match read_start(file, alloc) {
        Ok(bytes) => Fetched::Got(bytes),
        Err(refusal) => unread(&refusal),
    }
}

/// A refusal other than that there is no such file.
fn unread(refusal: &io::Error) -> Fetched
    ensures memory { error_kind refusal.now ≡ ErrorKind.OutOfMemory → result ≡ Fetched.NoMemory }
    ensures others { error_kind refusal.now ≢ ErrorKind.OutOfMemory → result ≡ Fetched.Failed }
{
    match refusal.kind() {
        ErrorKind::OutOfMemory => Fetched::NoMemory,
        _ => Fetched::Failed,
    }
}

/// The first [`MOST_FETCHED`] bytes, or all that there are. An empty read is the end.
#[tactic(auto, using(crate::proofs::Streams::start_when_full))]
fn read_start<R: Read + Drop>(mut from: R, alloc: Global) -> io::Result<Bytes>
    ensures start { IfOk result (IsStartOf (R.remaining from)) }
    ensures bounded { IfOk result (λ bytes. length bytes ≤ MOST_FETCHED) }
{
    let mut bytes = Vec::new(alloc);
    let mut part = [0; 4096];
    while bytes.len() < MOST_FETCHED {
        let wanted = part.len().min(MOST_FETCHED - bytes.len());
        let taken = from.read(&mut part[..wanted])?;
        if taken == 0 {
            return Ok(Bytes::from_vec(bytes));
        }
        bytes.extend_from_slice(&part[..taken])?;
    }
    Ok(Bytes::from_vec(bytes))
}

/// A shelf whose figures are files of the system, named from the folder that the program runs in. A file
/// that was there is overwritten, and one whose writing fails may be left cut short.
///
/// Contracts see the count of faults.
#[derive(Drop)]
pub struct RealShelf<R: rt::Files + Drop> {
    system: R,
    faults: u64,
}

impl<R: rt::Files + Drop> Model for RealShelf<R> {
    ghost use Rattle.std.specs.Prelude.{ℕ};

    ghost Value = { ℕ };

    ghost view = { λ s. s.faults };
}

impl<R: rt::Files + Drop> RealShelf<R> {
    /// The shelf of that system, with no fault.
    pub fn new(system: R) -> RealShelf<R>
        ensures { result ≡ 0 }
    {
        RealShelf { system, faults: 0 }
    }

    /// The count of faults.
    pub fn faults(&self) -> u64
        ensures { result ≡ self.now }
    {
        self.faults
    }
}

impl<R: rt::Files + Drop> Shelf for RealShelf<R> {
    ghost seen = { λ faults. record { faults = faults; pairs = None } };

    fn put(&mut self, name: &[u8], bytes: &[u8]) -> Stored
        ensures gives { PutGives (record { faults = self.old; pairs = None }) (record { faults = self.new; pairs = None }) name.now bytes.now result }
        ensures stored { (result ≡ Stored.Stored) → self.new ≡ self.old }
        ensures failed { (result ≡ Stored.Failed) → self.new ≡ next_count self.old }
    {
        let stored = write_file(&self.system, name, bytes);
        if let Stored::Failed = stored {
            self.faults = self.faults.saturating_add(1);
        }
        stored
    }
}

fn write_file<R: rt::Files>(system: &R, name: &[u8], bytes: &[u8]) -> Stored {
    match str::from_utf8(name) {
        Ok(path) => store_in(&mut fs::create(system, path), bytes),
        Err(_) => Stored::Failed,
    }
}

/// Stores the bytes in a file, if it could be made.
fn store_in<W: Write>(made: &mut io::Result<W>, bytes: &[u8]) -> Stored
    ensures { (result ≡ Stored.Stored) → HoldsMore W.contents made.old made.new bytes.now }
{
    let Ok(file) = made else {
        return Stored::Failed;
    };
    match write_whole(file, bytes) {
        Written::Written => Stored::Stored,
        Written::Failed => Stored::Failed,
    }
}

/// A sink over a writer, such as standard output.
///
/// Contracts see the count of faults, and the bytes that the writer holds where std knows them.
#[derive(Drop)]
pub struct WriterSink<W: Write + Drop> {
    writer: W,
    faults: u64,
}

impl<W: Write + Drop> Model for WriterSink<W> {
    ghost use Rattle.mp_files.specs.Streams.{WriterState};

    ghost Value = { WriterState };

    ghost view = { λ s. record { faults = s.faults; holds = W.contents s.writer } };
}

impl<W: Write + Drop> WriterSink<W> {
    /// A sink over that writer, with no fault.
    pub fn new(writer: W) -> WriterSink<W>
        ensures { result ≡ record { faults = 0; holds = W.contents writer } }
    {
        WriterSink { writer, faults: 0 }
    }

    /// The count of faults.
    pub fn faults(&self) -> u64
        ensures { result ≡ self.now.faults }
    {
        self.faults
    }
}

impl<W: Write + Drop> Sink for WriterSink<W> {
    ghost seen = { writer_seen };

    fn write_all(&mut self, bytes: &[u8]) -> Written
        ensures gives { WriteGives (writer_seen self.old) (writer_seen self.new) bytes.now result }
        ensures written { (result ≡ Written.Written) → Appends self.old.holds self.new.holds bytes.now }
        ensures failed { (result ≡ Written.Failed) → AppendsStart self.old.holds self.new.holds bytes.now }
        ensures counted { (result ≡ Written.Failed) → self.new.faults ≡ next_count self.old.faults }
    {
        let written = write_whole(&mut self.writer, bytes);
        if let Written::Failed = written {
            self.faults = self.faults.saturating_add(1);
        }
        written
    }
}

/// Writes all of the piece. A write that takes nothing fails, as one that is refused does.
fn write_whole<W: Write>(to: &mut W, piece: &[u8]) -> Written
    ensures written { (result ≡ Written.Written) → Appends (W.contents to.old) (W.contents to.new) piece.now }
    ensures failed { (result ≡ Written.Failed) → AppendsStart (W.contents to.old) (W.contents to.new) piece.now }
{
    let mut rest = piece;
    while !rest.is_empty() {
        match to.write(rest) {
            Ok(0) | Err(_) => return Written::Failed,
            Ok(taken) => rest = &rest[taken..],
        }
    }
    Written::Written
}
