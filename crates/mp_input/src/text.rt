//! A body with the arguments of a call.

ghost use Rattle.std.specs.Prelude.{◌≡◌, ◌↔◌, ◌+◌, ◌<◌, ◌^◌, [], IsTrue, OnSome, slice_get};
ghost use Rattle.std.specs.Option.{option_copied};
ghost use Rattle.mp_values.specs.Substitution.{stands_for, substitute};
ghost use Rattle.mp_input.specs.Taken.{TakenFrom};
ghost use Rattle.mp_input.specs.Texts.{past, behind};

use mp_scaled::{NoMemory, Shared};
use mp_values::{Arguments, Item, Items};
use std::marker::Model;

/// A place in a body.
#[derive(Clone, Copy, Debug)]
pub(crate) struct Position {
    // the item of the body that comes next
    at: usize,
    // how many items of what it stands for were taken
    inner: usize,
}

impl Position {
    // Goes to the next item of the body.
    fn pass(&mut self)
        requires { self.old.at + 1 < 2 ^ 64 }
        ensures { self.new ≡ past self.old }
    {
        self.at += 1;
        self.inner = 0;
    }

    // Goes behind one item that this item of the body gave.
    fn go(&mut self, item: &Item)
        requires at { self.old.at + 1 < 2 ^ 64 }
        requires inner { self.old.inner + 1 < 2 ^ 64 }
        ensures { self.new ≡ behind item.now self.old }
    {
        match item {
            Item::Param(_) => self.inner += 1,
            _ => self.pass(),
        }
    }
}

/// A body from some item on, in which each parameter stands for its argument. Contracts see the items that are left.
#[derive(Drop)]
pub(crate) struct Text {
    body: Shared<Items>,
    arguments: Arguments,
    next: Position,
}

impl Model for Text {
    ghost use Rattle.std.specs.Prelude.{List};
    ghost use Rattle.mp_values.specs.declared.item.Item.{Item};
    ghost use Rattle.mp_input.specs.Texts.{text_left};

    ghost Value = { List Item };

    ghost view = { λ t. text_left t.body t.next t.arguments };
}

// The item at a place.
fn item_at(items: &Items, at: usize) -> Option<&Item>
    ensures item { option_copied result ≡ slice_get items.now at }
    ensures room { OnSome result (at + 1 < 2 ^ 64) }
{
    items.as_slice().get(at)
}

// Of the items that an item of a body stands for, the one at a place.
fn given<'a>(item: &'a Item, inner: usize, arguments: &'a Arguments) -> Option<&'a Item>
    ensures item { option_copied result ≡ slice_get (stands_for arguments.now item.now) inner }
    ensures room { OnSome result (inner + 1 < 2 ^ 64) }
{
    match item {
        Item::Param(number) => match arguments.as_slice().get(usize::from(*number)) {
            Some(argument) => item_at(argument.get(), inner),
            None => None,
        },
        other => if inner == 0 { Some(other) } else { None },
    }
}

impl Text {
    /// The whole body.
    pub(crate) fn new(body: Shared<Items>, arguments: Arguments) -> Text
        ensures { result ≡ substitute body arguments }
    {
        Text {
            body,
            arguments,
            next: Position { at: 0, inner: 0 },
        }
    }

    /// The first item that is left.
    #[tactic(auto, using(crate::proofs::TextLemmas::text_moves, crate::proofs::TextLemmas::text_passes, crate::proofs::TextLemmas::text_ends))]
    pub(crate) fn take(&mut self) -> Result<Option<Item>, NoMemory>
        ensures { TakenFrom self.old result self.new }
    {
        'items: loop {
            match item_at(self.body.get(), self.next.at) {
                Some(item) => {
                    match given(item, self.next.inner, &self.arguments) {
                        Some(found) => {
                            let taken = found.share()?;
                            self.next.go(item);
                            return Ok(Some(taken));
                        }
                        None => self.next.pass(),
                    }
                }
                None => return Ok(None),
            }
        }
    }

    /// Whether nothing is left. Parameters that give no more are passed over on the way.
    #[tactic(auto, using(crate::proofs::TextLemmas::text_moves, crate::proofs::TextLemmas::text_passes, crate::proofs::TextLemmas::text_ends))]
    pub(crate) fn is_over(&mut self) -> bool
        ensures same { self.new ≡ self.old }
        ensures over { IsTrue result ↔ (self.old ≡ []) }
    {
        'items: loop {
            match item_at(self.body.get(), self.next.at) {
                Some(item) => {
                    match given(item, self.next.inner, &self.arguments) {
                        Some(_) => return false,
                        None => self.next.pass(),
                    }
                }
                None => return true,
            }
        }
    }
}
