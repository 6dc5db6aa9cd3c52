//! The three traits, and what their calls answer.

ghost use Rattle.std.specs.Prelude.{◌≡◌};
ghost use Rattle.mp_files.specs.Seen.{FilesSeen, ShelfSeen, SinkSeen};
ghost use Rattle.mp_files.specs.Outside.{FetchGives, PutGives, WriteGives};

use mp_scaled::{Bytes, Listing};
use std::alloc::Global;

/// At most so many bytes of a source are fetched: those of the longest source that is allowed, and one
/// more, by which a longer one is known.
pub const MOST_FETCHED: usize = 4194305;

/// What a name stands for.
#[derive(Debug, Drop)]
pub enum Contents {
    /// There is no such file.
    Absent,
    /// The bytes of the file.
    Here(Bytes),
}

/// A source under the name by which it is fetched.
#[derive(Debug, Drop)]
pub struct Kept {
    /// The name.
    pub name: Bytes,
    /// What the name stands for.
    pub contents: Contents,
}

/// Sources in order; of several with one name the first counts.
pub type Sources = Listing<Kept>;

/// What a fetch answers.
#[derive(Debug, Drop)]
pub enum Fetched {
    /// The bytes of the source, at most the first [`MOST_FETCHED`].
    Got(Bytes),
    /// There is no such source.
    Absent,
    /// The source cannot be read: a fault.
    Failed,
    /// Memory ran out. The name does not count as fetched.
    NoMemory,
}

/// What a put answers.
#[derive(Clone, Copy, Debug, PartialEq, Eq)]
pub enum Stored {
    /// The bytes stand under their name.
    Stored,
    /// They do not: a fault.
    Failed,
}

/// What a write answers.
#[derive(Clone, Copy, Debug, PartialEq, Eq)]
pub enum Written {
    /// The whole piece was written.
    Written,
    /// At most a prefix of it was: a fault.
    Failed,
}

/// Where sources come from.
pub trait Files {
    /// Its count of faults, and what it tells, if anything: the content of each name, and the names that
    /// were fetched so far.
    ghost seen: { Self → FilesSeen };

    /// Fetches the source of that name. The name is noted as fetched, unless memory runs out.
    fn fetch(&mut self, alloc: Global, name: &[u8]) -> Fetched
        ensures { FetchGives (seen self.old) (seen self.new) name.now result };
}

/// Where figures go.
pub trait Shelf {
    /// Its count of faults, and the pairs of a name and bytes that it tells, if any.
    ghost seen: { Self → ShelfSeen };

    /// Stores the bytes under the name.
    fn put(&mut self, name: &[u8], bytes: &[u8]) -> Stored
        ensures { PutGives (seen self.old) (seen self.new) name.now bytes.now result };
}

/// Where lines go.
pub trait Sink {
    /// Its count of faults, and the bytes that it tells, if any.
    ghost seen: { Self → SinkSeen };

    /// Writes all of a piece.
    fn write_all(&mut self, bytes: &[u8]) -> Written
        ensures { WriteGives (seen self.old) (seen self.new) bytes.now result };
}
