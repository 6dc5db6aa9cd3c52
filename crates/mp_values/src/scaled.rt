//! Scaled numbers.

ghost use Rattle.std.specs.Prelude.{◌≡◌};

use std::marker::Model;

/// A scaled number: so many units of 2^-16. Contracts see the number of units.
#[derive(Clone, Copy)]
pub struct Scaled {
    units: i32,
}

impl Model for Scaled {
    ghost use Rattle.std.specs.Prelude.{ℤ};

    ghost Value = { ℤ };

    ghost view = { λ s. s.units };

    ghost inverse = { λ units. record { units = units } };
}

impl Scaled {
    /// So many units of 2^-16.
    pub fn new(units: i32) -> Scaled
        ensures { result ≡ units }
    {
        Scaled { units }
    }

    /// The number of units of 2^-16.
    pub fn units(self) -> i32
        ensures { result ≡ self }
    {
        self.units
    }
}
