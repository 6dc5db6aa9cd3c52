/// So many unknowns can be made.
pub const UNKNOWN_LIMIT: usize = 1_000_000;

/// The dependent forms may have so many terms together.
pub const TERM_LIMIT: usize = 4_000_000;
