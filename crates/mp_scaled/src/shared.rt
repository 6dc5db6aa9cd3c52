//! Values that are shared and never copied, which contracts see as what they hold.

ghost use Rattle.std.specs.Prelude.{◌≡◌, IfOk};
ghost use Rattle.std.specs.Rc.{rc_slice_items};

use crate::NoMemory;
use std::alloc::{AllocError, Global};
use std::marker::Model;
use std::rc::{Rc, RcSlice};

/// An `Rc` that contracts see as its value.
#[derive(Debug, Drop)]
pub struct Shared<T> {
    inner: Rc<T>,
}

impl<T> Model for Shared<T> {
    ghost Value = { T };

    ghost coded = { T.code };

    ghost view = { λ s. s.inner.value };
}

impl<T: Drop> Shared<T> {
    /// A shared value of its own.
    pub fn new(alloc: Global, value: T) -> Result<Shared<T>, NoMemory>
        ensures { IfOk result (λ s. s ≡ value) }
    {
        Ok(Shared {
            inner: Rc::new(alloc, value)?,
        })
    }

    /// The value.
    pub fn get(&self) -> &T
        ensures { result.now ≡ self.now }
    {
        &self.inner
    }

    /// The same value once more; nothing is copied.
    pub fn share(&self) -> Result<Shared<T>, NoMemory>
        ensures { IfOk result (λ s. s ≡ self.now) }
    {
        Ok(Shared {
            inner: self.inner.clone()?,
        })
    }
}

/// An `RcSlice` that contracts see as its list.
#[derive(Debug, Drop)]
pub struct SharedSlice<T> {
    inner: RcSlice<T>,
}

impl<T> Model for SharedSlice<T> {
    ghost use Rattle.std.specs.Prelude.{List};
    ghost use Rattle.std.specs.Coded.{coded_list};
    ghost use Rattle.std.specs.Rc.{rc_slice_items};

    ghost Value = { List T };

    ghost coded = { coded_list T.code };

    ghost view = { λ s. rc_slice_items s.inner };
}

impl<T: Drop> SharedSlice<T> {
    /// The items of a vector, shared from now on.
    pub fn from_vec(items: Vec<T>) -> Result<SharedSlice<T>, NoMemory>
        ensures { IfOk result (λ s. s ≡ items.items) }
    {
        Ok(SharedSlice {
            inner: RcSlice::from_vec(items)?,
        })
    }

    /// The items.
    pub fn as_slice(&self) -> &[T]
        ensures { result.now ≡ self.now }
    {
        self.inner.as_slice()
    }

    /// The same value once more; nothing is copied.
    pub fn share(&self) -> Result<SharedSlice<T>, NoMemory>
        ensures { IfOk result (λ s. s ≡ self.now) }
    {
        Ok(SharedSlice {
            inner: self.inner.clone()?,
        })
    }
}
