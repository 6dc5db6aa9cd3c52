//! Linear forms: a number plus multiples of unknowns.
//!
//! A form is a constant, in units of 2^-16, and terms whose coefficients are in units of 2^-28. Sums,
//! products with a known number and quotients by one are rounded term by term, to the nearest unit and a
//! half away from zero, and a coefficient that comes out too small to be more than an error of rounding is
//! dropped (after Knuth, METAFONT: The Program, part 28).
#![tactic(auto)]

mod fault;
mod form;
mod laws;
mod terms;

pub use fault::FormFault;
pub use form::Form;
pub use laws::terms_stay_in_order;
