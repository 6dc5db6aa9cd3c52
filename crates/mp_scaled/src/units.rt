//! The units of numbers, and what is too large.

/// 1 as a scaled number, in units of 2^-16.
pub const SCALED_ONE: u32 = 1 << 16;

/// 1 as a fraction, in units of 2^-28.
pub const FRACTION_ONE: u32 = 1 << 28;

/// The least magnitude, in units, that no number has: a result that reaches it is refused.
pub const MAGNITUDE_LIMIT: u32 = 1 << 31;
