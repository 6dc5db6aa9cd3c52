//! Numbers, bytes and lists: what every other crate is made of.
//!
//! A scaled number is a whole number in units of 2^-16, a fraction one in units of 2^-28. Products and
//! quotients are rounded to the nearest unit, a half away from zero; a result of magnitude 2^31 or more
//! is an overflow. Decimal digits are read, and scaled numbers printed, so that what is printed reads
//! back as itself (after Knuth, METAFONT: The Program, part 7).
#![tactic(auto)]

mod arith;
mod decimal;
mod listing;
mod no_memory;
mod print;
mod shared;
#[cfg(test)]
mod tests;
mod units;

pub use arith::{Arith, make_fraction, make_scaled, take_fraction, take_scaled};
pub use decimal::{DIGIT_ZERO, FRACTION_DIGITS, MINUS, POINT, TooLarge, read_decimal};
pub use listing::{Bytes, Listing};
pub use no_memory::NoMemory;
pub use print::{print_scaled, printed_reads_back};
pub use shared::{Shared, SharedSlice};
pub use units::{FRACTION_ONE, MAGNITUDE_LIMIT, SCALED_ONE};
