//! A sink in memory.

ghost use Rattle.std.specs.Prelude.{◌≡◌, ◌+◌, ◌≤◌, ◌++◌, IfOk, vec_len, vec_capacity, length};
ghost use Rattle.mp_files.specs.Outside.{WriteGives};
ghost use Rattle.mp_files.specs.MemorySink.{new_sink, sink_seen, after_of, write_answer, after_write};

use crate::room::append;
use crate::{Sink, Written};
use mp_scaled::NoMemory;
use std::alloc::Global;
use std::marker::Model;

/// A write that fails, and how many bytes of its piece it takes first.
#[derive(Clone, Copy, Debug, PartialEq, Eq)]
pub struct FailAt {
    /// The number of the call; the first call has the number 1.
    pub call: u32,
    /// The write takes so many bytes, or all that there are or fit.
    pub after: usize,
}

/// A sink in memory, which tells its bytes and fails at the calls that it is told to.
///
/// Its room is taken when it is made, and a write takes no memory. Contracts see the bytes, the room for
/// all of them, the count of calls, the calls that fail, and the count of faults.
#[derive(Debug, Drop)]
pub struct MemorySink {
    bytes: Vec<u8>,
    room: usize,
    calls: u64,
    failing: Vec<FailAt>,
    faults: u64,
}

impl Model for MemorySink {
    ghost use Rattle.std.specs.Prelude.{◌≤◌, vec_len, vec_capacity};
    ghost use Rattle.mp_files.specs.MemorySink.{SinkState};

    ghost Value = { SinkState };

    ghost view = { λ s. record { bytes = s.bytes.items; room = s.room; calls = s.calls; failing = s.failing.items; faults = s.faults } };

    ghost invariant = { λ s. (vec_len s.bytes ≤ s.room) × (s.room ≤ vec_capacity s.bytes) };
}

impl MemorySink {
    /// An empty sink with room for so many bytes. The calls that are listed fail; of several entries for
    /// one call the first counts.
    pub fn new(alloc: Global, bytes: usize, failing: &[FailAt]) -> Result<MemorySink, NoMemory>
        ensures { IfOk result (λ sink. sink ≡ new_sink bytes failing.now) }
    {
        let room = bytes;
        let bytes = Vec::with_capacity(alloc, room)?;
        let failing = Vec::from_slice(alloc, failing)?;
        Ok(MemorySink {
            bytes,
            room,
            calls: 0,
            failing,
            faults: 0,
        })
    }

    /// The bytes that were written.
    pub fn as_slice(&self) -> &[u8]
        ensures { result.now ≡ self.now.bytes }
    {
        self.bytes.as_slice()
    }
}

impl Sink for MemorySink {
    ghost seen = { sink_seen };

    fn write_all(&mut self, bytes: &[u8]) -> Written
        ensures gives { WriteGives (sink_seen self.old) (sink_seen self.new) bytes.now result }
        ensures exact { result ≡ write_answer self.old bytes.now }
        ensures leaves { self.new ≡ after_write self.old bytes.now }
    {
        self.calls = self.calls.saturating_add(1);
        let left = self.room - self.bytes.len();
        let listed = after_of(self.failing.as_slice(), self.calls);
        if listed.is_none() && bytes.len() <= left {
            append(&mut self.bytes, bytes);
            return Written::Written;
        }
        let taken = listed.unwrap_or(0).min(left).min(bytes.len());
        append(&mut self.bytes, &bytes[..taken]);
        self.faults = self.faults.saturating_add(1);
        Written::Failed
    }
}

/// How many bytes the call takes before it fails, by the first entry that names it.
fn after_of(failing: &[FailAt], call: u64) -> Option<usize>
    ensures { result ≡ after_of failing.now call }
{
    let entry = failing.iter().find(|entry| u64::from(entry.call) == call)?;
    Some(entry.after)
}
