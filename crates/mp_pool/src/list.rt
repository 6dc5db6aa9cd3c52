//! Names of lists.

ghost use Rattle.std.specs.Prelude.{◌≡◌, ◌+◌};

/// The name of a list of a pool: the slot that it is in.
#[derive(Clone, Copy, Debug, PartialEq, Eq)]
pub struct List {
    /// The number of the slot; slots are counted from 0.
    pub slot: u32,
}

impl List {
    /// The chain of the list.
    #[inline(always)]
    pub(crate) fn chain(self) -> usize
        ensures { result ≡ 3 + self.slot }
    {
        3 + self.slot as usize
    }
}
