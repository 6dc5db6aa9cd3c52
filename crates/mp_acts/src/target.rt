//! What a value can be assigned to.

use mp_vartree::Suffix;

/// What a value can be assigned to.
#[derive(Drop)]
pub enum Target {
    /// The variable of that root, with these parts behind its tag.
    Variable(u32, Suffix),
    /// The internal of that number.
    Internal(u32),
}
