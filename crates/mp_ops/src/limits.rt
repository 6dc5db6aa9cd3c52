//! Limits.

/// The most bytes that a string has.
pub const TEXT_LIMIT: u32 = 65536;
