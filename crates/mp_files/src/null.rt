//! A shelf and a sink that drop what they are given.

ghost use Rattle.std.specs.Prelude.{◌≡◌, None};
ghost use Rattle.mp_files.specs.Seen.{ShelfSeen, SinkSeen};
ghost use Rattle.mp_files.specs.Outside.{PutGives, WriteGives};

use crate::{Shelf, Sink, Stored, Written};

/// A shelf that drops what it is given, tells nothing and never fails.
#[derive(Clone, Copy, Debug, PartialEq, Eq)]
pub struct NullShelf;

impl Shelf for NullShelf {
    ghost seen = { λ _. record { faults = 0; pairs = None } };

    fn put(&mut self, name: &[u8], bytes: &[u8]) -> Stored
        ensures gives { PutGives (record { faults = 0; pairs = None }) (record { faults = 0; pairs = None }) name.now bytes.now result }
        ensures never_fails { result ≡ Stored.Stored }
    {
        Stored::Stored
    }
}

/// A sink that drops what it is given, tells nothing and never fails.
#[derive(Clone, Copy, Debug, PartialEq, Eq)]
pub struct NullSink;

impl Sink for NullSink {
    ghost seen = { λ _. record { faults = 0; bytes = None } };

    fn write_all(&mut self, bytes: &[u8]) -> Written
        ensures gives { WriteGives (record { faults = 0; bytes = None }) (record { faults = 0; bytes = None }) bytes.now result }
        ensures never_fails { result ≡ Written.Written }
    {
        Written::Written
    }
}
