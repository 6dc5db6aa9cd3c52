//! What operators read beside their operands.

ghost use Rattle.std.specs.Prelude.{◌≡◌, ◌<◌, length, IfSome, option_copied};
ghost use Rattle.mp_ops.specs.Store as store;
ghost use Rattle.mp_ops.specs.Store.{IsIn, IsWhole};

use mp_solver::System;
use mp_values::Value;
use std::alloc::Global;
use std::marker::Model;

/// What operators read beside their operands: the unknowns, and what slots were filled with. It is lent for the time of one
/// operator. Contracts see what the equations say of the unknowns, and the slots.
#[derive(Drop)]
pub struct Store<'a> {
    pub(crate) alloc: Global,
    pub(crate) system: &'a System,
    slots: &'a [Option<Value>],
}

impl<'a> Model for Store<'a> {
    ghost use Rattle.mp_ops.specs.Store.{Store, IsWhole};

    ghost Value = { Store };

    ghost view = { λ s. record { unknowns = s.system.now.unknowns.states; slots = s.slots.now } };

    ghost invariant = { λ s. IsWhole (record { unknowns = s.system.now.unknowns.states; slots = s.slots.now }) };
}

impl<'a> Store<'a> {
    /// The unknowns of a system and the slots, which speak of nothing but one another.
    pub fn new(alloc: Global, system: &'a System, slots: &'a [Option<Value>]) -> Store<'a>
        requires { IsWhole (record { unknowns = system.now.unknowns.states; slots = slots.now }) }
        ensures { result ≡ record { unknowns = system.now.unknowns.states; slots = slots.now } }
    {
        Store {
            alloc,
            system,
            slots,
        }
    }

    /// What a slot was filled with, if it was.
    fn slot(&self, slot: u32) -> Option<&'a Value>
        requires { slot < length self.now.slots }
        ensures held { option_copied result ≡ store.slot_in self.now.slots slot }
        ensures within { IfSome result (λ v. IsIn v.now self.now) }
    {
        self.slots[slot as usize].as_ref()
    }

    /// The value itself, or what its slot was filled with.
    pub fn settled<'b>(&'b self, value: &'b Value) -> &'b Value
        requires { IsIn value.now self.now }
        ensures exact { result.now ≡ store.settled self.now.slots value.now }
        ensures within { IsIn result.now self.now }
    {
        match value {
            Value::Unset(_, slot) => self.slot(*slot).unwrap_or(value),
            _ => value,
        }
    }
}
