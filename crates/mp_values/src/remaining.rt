//! What is left of a list.

ghost use Rattle.std.specs.Prelude.{◌≡◌, IfOk, slice_get, drop};
ghost use Rattle.std.specs.Option.{option_copied};

use mp_scaled::{Listing, NoMemory, Shared};
use std::alloc::Global;
use std::marker::Model;

/// What is left of a list whose entries are shared, so that leaving the first one copies none. Contracts see the
/// list of those that are left.
#[derive(Drop)]
pub struct Remaining<T> {
    entries: Shared<Listing<T>>,
    gone: usize,
}

impl<T> Model for Remaining<T> {
    ghost use Rattle.std.specs.Prelude.{List, drop};
    ghost use Rattle.std.specs.Coded.{coded_list};

    ghost Value = { List T };

    ghost coded = { coded_list T.code };

    ghost view = { λ r. drop r.gone r.entries };
}

impl<T: Drop> Remaining<T> {
    /// The whole list.
    pub fn new(alloc: Global, entries: Listing<T>) -> Result<Remaining<T>, NoMemory>
        ensures { IfOk result (λ remaining. remaining ≡ entries) }
    {
        Ok(Remaining {
            entries: Shared::new(alloc, entries)?,
            gone: 0,
        })
    }

    /// The first entry that is left.
    pub fn first(&self) -> Option<&T>
        ensures { option_copied result ≡ slice_get self.now 0 }
    {
        self.entries.get().as_slice().get(self.gone)
    }

    /// What is left behind the first entry; it is shared.
    #[tactic(auto, using(crate::proofs::RestLemmas::rest_is, crate::proofs::RestLemmas::nothing_is_left))]
    pub fn rest(&self) -> Result<Remaining<T>, NoMemory>
        ensures { IfOk result (λ rest. rest ≡ drop 1 self.now) }
    {
        let entries = self.entries.share()?;
        if self.gone < self.entries.get().as_slice().len() {
            return Ok(Remaining {
                entries,
                gone: self.gone + 1,
            });
        }
        Ok(Remaining {
            entries,
            gone: self.gone,
        })
    }
}
