//! The name of a variable.

use mp_vartree::Suffix;

/// What a tag and the parts behind it are.
#[derive(Drop)]
pub enum Named {
    /// A variable: its root, and the parts behind it.
    Variable(u32, Suffix),
    /// The name of a macro, which was called in its place.
    Called,
}
