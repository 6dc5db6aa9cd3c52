//! What a heading may hold.

/// A macro may have so many parameters.
pub const PARAMETER_LIMIT: u32 = 64;
