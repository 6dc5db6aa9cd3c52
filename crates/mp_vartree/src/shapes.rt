//! The pattern that a name matches.

ghost use Rattle.std.specs.Prelude.{◌≡◌, IfOk};
ghost use Rattle.mp_vartree.specs.Names as names;
ghost use Rattle.mp_vartree.specs.Names.{shape_of};

use crate::{Part, Pattern, Shape};
use mp_scaled::{Listing, NoMemory};
use std::alloc::Global;

impl Shape {
    /// The shape of a part: a subscript is any subscript.
    pub fn of(part: Part) -> Shape
        ensures { result ≡ shape_of part }
    {
        match part {
            Part::Sym(symbol) => Shape::Sym(symbol),
            Part::Sub(_) => Shape::Any,
        }
    }
}

/// The one pattern that a name matches.
pub fn pattern_of(alloc: Global, name: &[Part]) -> Result<Pattern, NoMemory>
    ensures { IfOk result (λ pattern. pattern ≡ names.pattern_of name.now) }
{
    let mut pattern = Listing::new(alloc);
    'parts: for part in name {
        pattern.push(Shape::of(*part))?;
    }
    Ok(pattern)
}
