//! Values.

ghost use Rattle.std.specs.Prelude.{◌≡◌, IfOk};
ghost use Rattle.mp_values.specs.Words.{name_of_kind};

use mp_forms::Form;
use mp_scaled::{NoMemory, SharedSlice};
use std::alloc::Global;

/// The types that a variable may have.
#[derive(Clone, Copy, PartialEq, Eq)]
pub enum Kind {
    Boolean,
    Numeric,
    Text,
}

impl Kind {
    /// The word of the language for the type.
    pub fn name(self) -> &'static [u8]
        ensures { result.now ≡ name_of_kind self }
    {
        match self {
            Kind::Boolean => b"boolean",
            Kind::Numeric => b"numeric",
            Kind::Text => b"string",
        }
    }
}

/// A value.
#[derive(Drop)]
pub enum Value {
    Boolean(bool),
    /// A number: a constant and multiples of unknowns.
    Numeric(Form),
    /// A string, by its bytes.
    Text(SharedSlice<u8>),
    /// A value of that type, which is that of the slot with that number as soon as the slot is filled.
    Unset(Kind, u32),
    /// The value of a statement that is no expression, and of a group that ends with one.
    Vacuous,
}

impl Value {
    /// The value once more; a string is shared.
    pub fn copy(&self, alloc: Global) -> Result<Value, NoMemory>
        ensures { IfOk result (λ copy. copy ≡ self.now) }
    {
        match self {
            Value::Boolean(truth) => Ok(Value::Boolean(*truth)),
            Value::Numeric(form) => Ok(Value::Numeric(form.copy(alloc)?)),
            Value::Text(bytes) => Ok(Value::Text(bytes.share()?)),
            Value::Unset(kind, slot) => Ok(Value::Unset(*kind, *slot)),
            Value::Vacuous => Ok(Value::Vacuous),
        }
    }
}
