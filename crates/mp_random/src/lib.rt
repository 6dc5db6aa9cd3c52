//! Random words, by subtraction of words that stand apart from one another.
//!
//! There are 55 words below 2^28, answered from the last to the first. When none is left they are
//! renewed (after Knuth, METAFONT: The Program, part 8). One seed always gives the same words.
#![tactic(auto)]

mod random;
#[cfg(test)]
mod tests;

pub use random::{MODULUS, Random, WORDS};
