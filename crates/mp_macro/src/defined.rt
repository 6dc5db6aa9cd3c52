//! What a definition defines.

use mp_values::Macro;
use mp_vartree::Pattern;

/// What a definition defines, and the macro that it gets.
#[derive(Drop)]
pub struct Defined {
    /// The symbol that gets the macro, or the tag of the variable that does.
    pub symbol: u32,
    /// The parts of the variable's name behind its tag; of a symbol none.
    pub parts: Pattern,
    pub value: Macro,
}
