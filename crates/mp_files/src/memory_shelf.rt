//! A shelf in memory.

ghost use Rattle.std.specs.Prelude.{◌≡◌, ◌↔◌, IsTrue, ◌+◌, ◌<◌, ◌≤◌, [], ◌∷◌, ◌++◌, IfOk, length, map, slice_get, vec_len, vec_capacity};
ghost use Rattle.std.specs.Option.{option_map};
ghost use Rattle.mp_files.specs.Outside.{PutGives};
ghost use Rattle.mp_files.specs.MemoryShelf.{new_shelf, shelf_seen, has_room, put_answer, after_put, pair_at, Fills};

use crate::room::{append, is_listed, push};
use crate::{Shelf, Stored};
use mp_scaled::NoMemory;
use std::alloc::Global;
use std::marker::Model;

/// Where a pair stands in the text: the name from its start, the bytes from its middle to its end.
#[derive(Clone, Copy, Debug)]
struct Place {
    start: usize,
    middle: usize,
    end: usize,
}

/// A shelf in memory, which tells its pairs and fails at the calls that it is told to.
///
/// Its room is taken when it is made, and a put takes no memory. Contracts see the pairs, the room for all
/// of them and for all their bytes, the count of calls, the calls that fail, and the count of faults.
#[derive(Debug, Drop)]
pub struct MemoryShelf {
    places: Vec<Place>,
    text: Vec<u8>,
    pair_room: usize,
    byte_room: usize,
    calls: u64,
    failing: Vec<u32>,
    faults: u64,
}

impl Model for MemoryShelf {
    ghost use Rattle.std.specs.Prelude.{◌≤◌, vec_len, vec_capacity, map};
    ghost use Rattle.mp_files.specs.MemoryShelf.{ShelfState, pair_at, Fills};

    ghost Value = { ShelfState };

    ghost view = { λ s. record { pairs = map (pair_at s.text.items) s.places.items; pair_room = s.pair_room; byte_room = s.byte_room; calls = s.calls; failing = s.failing.items; faults = s.faults } };

    ghost invariant = { λ s. Fills s.places.items s.text.items × (vec_len s.places ≤ s.pair_room) × (s.pair_room ≤ vec_capacity s.places) × (vec_len s.text ≤ s.byte_room) × (s.byte_room ≤ vec_capacity s.text) };
}

impl MemoryShelf {
    /// An empty shelf with room for so many pairs, and for so many bytes of names and contents together.
    /// The calls whose numbers are listed fail; the first call has the number 1.
    pub fn new(
        alloc: Global,
        pairs: usize,
        bytes: usize,
        failing: &[u32],
    ) -> Result<MemoryShelf, NoMemory>
        ensures { IfOk result (λ shelf. shelf ≡ new_shelf pairs bytes failing.now) }
    {
        let places = Vec::with_capacity(alloc, pairs)?;
        let text = Vec::with_capacity(alloc, bytes)?;
        let failing = Vec::from_slice(alloc, failing)?;
        Ok(MemoryShelf {
            places,
            text,
            pair_room: pairs,
            byte_room: bytes,
            calls: 0,
            failing,
            faults: 0,
        })
    }

    /// How many pairs are stored.
    pub fn len(&self) -> usize
        ensures { result ≡ length self.now.pairs }
    {
        self.places.len()
    }

    /// Nothing is stored.
    pub fn is_empty(&self) -> bool
        ensures { IsTrue result ↔ (self.now.pairs ≡ []) }
    {
        self.places.is_empty()
    }

    /// The name and the bytes of the pair at that index, counted from 0.
    pub fn get(&self, index: usize) -> Option<(&[u8], &[u8])>
        ensures { option_map (λ pair. (pair.0.now, pair.1.now)) result ≡ slice_get self.now.pairs index }
    {
        let place = self.places.get(index)?;
        let text = self.text.as_slice();
        Some((
            &text[place.start..place.middle],
            &text[place.middle..place.end],
        ))
    }

    fn has_room(&self, name: &[u8], bytes: &[u8]) -> bool
        ensures { result ≡ has_room self.now name.now bytes.now }
    {
        let left = self.byte_room - self.text.len();
        self.places.len() < self.pair_room && name.len() <= left && bytes.len() <= left - name.len()
    }
}

impl Shelf for MemoryShelf {
    ghost seen = { shelf_seen };

    fn put(&mut self, name: &[u8], bytes: &[u8]) -> Stored
        ensures gives { PutGives (shelf_seen self.old) (shelf_seen self.new) name.now bytes.now result }
        ensures exact { result ≡ put_answer self.old name.now bytes.now }
        ensures leaves { self.new ≡ after_put self.old name.now bytes.now }
    {
        self.calls = self.calls.saturating_add(1);
        if is_listed(self.failing.as_slice(), self.calls) || !self.has_room(name, bytes) {
            self.faults = self.faults.saturating_add(1);
            return Stored::Failed;
        }
        store(&mut self.places, &mut self.text, name, bytes);
        Stored::Stored
    }
}

/// Puts a pair behind the others. There is room for it.
fn store(places: &mut Vec<Place>, text: &mut Vec<u8>, name: &[u8], bytes: &[u8])
    requires pair_room { vec_len places.old < vec_capacity places.old }
    requires byte_room { vec_len text.old + length name.now + length bytes.now ≤ vec_capacity text.old }
    requires full { Fills places.old.items text.old.items }

    ensures pairs { map (pair_at text.new.items) places.new.items ≡ map (pair_at text.old.items) places.old.items ++ (name.now, bytes.now) ∷ [] }
    ensures full { Fills places.new.items text.new.items }

    ensures places_len { vec_len places.new ≡ vec_len places.old + 1 }
    ensures text_len { vec_len text.new ≡ vec_len text.old + length name.now + length bytes.now }
    ensures places_room { vec_capacity places.old ≤ vec_capacity places.new }
    ensures text_room { vec_capacity text.old ≤ vec_capacity text.new }
{
    let start = text.len();
    append(text, name);
    let middle = text.len();
    append(text, bytes);
    let end = text.len();
    push(places, Place { start, middle, end });
}
