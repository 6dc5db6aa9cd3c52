//! Lists of items that hold no ends, and the arguments of a call.

ghost use Rattle.std.specs.Prelude.{◌≡◌, [], ◌∷◌, ◌++◌, OnOk, OnErr};
ghost use Rattle.mp_values.specs.Ends.{IsNoEnd, NoEnds, AllNoEnds};

use crate::Item;
use mp_scaled::{NoMemory, Shared};
use std::alloc::Global;
use std::marker::Model;

/// Items in their order, of which none is the end of a line, of a file or of the whole text: a macro's body, an
/// argument, a suffix, or what was read raw. Contracts see a list.
#[derive(Drop)]
pub struct Items {
    inner: Vec<Item>,
}

impl Model for Items {
    ghost use Rattle.std.specs.Prelude.{List};
    ghost use Rattle.mp_values.specs.declared.item.Item.{Item};
    ghost use Rattle.mp_values.specs.Ends.{NoEnds};

    ghost Value = { List Item };

    ghost view = { λ i. i.inner.items };

    ghost invariant = { λ i. NoEnds i.inner.items };
}

impl Items {
    /// No items.
    pub fn new(alloc: Global) -> Items
        ensures { result ≡ [] }
    {
        Items {
            inner: Vec::new(alloc),
        }
    }

    /// One more item at the end.
    #[tactic(auto, using(crate::proofs::EndLemmas::no_ends_push))]
    pub fn push(&mut self, item: Item) -> Result<(), NoMemory>
        requires { IsNoEnd item }
        ensures ok { OnOk result (self.new ≡ self.old ++ item ∷ []) }
        ensures err { OnErr result (self.new ≡ self.old) }
    {
        self.inner.push(item)?;
        Ok(())
    }

    /// The items.
    pub fn as_slice(&self) -> &[Item]
        ensures { result.now ≡ self.now }
    {
        self.inner.as_slice()
    }

    /// What the type keeps, for a proof: none of the items is an end. It does nothing.
    pub fn has_no_ends(&self)
        ensures { NoEnds self.now }
    {
        let _ = &self.inner;
    }
}

/// The arguments of a call, each as the items that stand for its parameter. Contracts see a list of lists.
#[derive(Drop)]
pub struct Arguments {
    inner: Vec<Shared<Items>>,
}

impl Model for Arguments {
    ghost use Rattle.std.specs.Prelude.{List};
    ghost use Rattle.mp_values.specs.declared.item.Item.{Item};
    ghost use Rattle.mp_values.specs.Ends.{AllNoEnds};

    ghost Value = { List (List Item) };

    ghost view = { λ i. i.inner.items };

    ghost invariant = { λ i. AllNoEnds i.inner.items };
}

impl Arguments {
    /// No arguments.
    pub fn new(alloc: Global) -> Arguments
        ensures { result ≡ [] }
    {
        Arguments {
            inner: Vec::new(alloc),
        }
    }

    /// One more argument at the end.
    #[tactic(auto, using(crate::proofs::EndLemmas::all_no_ends_push))]
    pub fn push(&mut self, argument: Shared<Items>) -> Result<(), NoMemory>
        ensures ok { OnOk result (self.new ≡ self.old ++ argument ∷ []) }
        ensures err { OnErr result (self.new ≡ self.old) }
    {
        argument.get().has_no_ends();
        self.inner.push(argument)?;
        Ok(())
    }

    /// The arguments.
    pub fn as_slice(&self) -> &[Shared<Items>]
        ensures { result.now ≡ self.now }
    {
        self.inner.as_slice()
    }

    /// What the type keeps, for a proof: none of their items is an end. It does nothing.
    pub fn have_no_ends(&self)
        ensures { AllNoEnds self.now }
    {
        let _ = &self.inner;
    }
}
