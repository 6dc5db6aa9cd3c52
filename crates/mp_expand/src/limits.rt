//! Limits.

/// So many primaries may be read inside one another; a call that waits for an argument counts as one, and so does a
/// condition that waits for its truth.
pub const NESTING_LIMIT: u32 = 100;
