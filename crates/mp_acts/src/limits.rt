//! The limits that this crate tests. Definitions cite them.

/// All lines together have at most so many bytes.
pub const LINES_LIMIT: u32 = 16_777_216;
