//! Roots, angles, logarithms and exponentials, in whole numbers alone.
//!
//! A scaled number is in units of 2^-16, a fraction in units of 2^-28, an angle in units of 2^-20
//! degree. Roots are the nearest whole numbers of units; the other functions are short recurrences
//! over a table (after Knuth, METAFONT: The Program, part 8). Every constant is this project's choice.
#![tactic(auto)]

mod directions;
mod fault;
mod laws;
mod logs;
mod quotient;
mod roots;
mod sines;
mod table;

pub use directions::angle_of;
pub use fault::TrigFault;
pub use laws::nearest_roots_are_single;
pub use logs::{mexp, mlog};
pub use roots::{pyth_add, pyth_sub, square_root};
pub use sines::sin_cos;
