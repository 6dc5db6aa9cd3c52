//! The operators of the language: what each makes of its operands, and what it refuses.
//!
//! The table stands in specs/Operators.antt: for each operator what it takes, and what it makes of that. How operands are
//! taken is said once, in specs/Operands.antt: their types first, then each is brought up to date, the left one first, and
//! then what must be known is tested. What an operator reads beside its operands is its [`Store`], which is lent to it.
#![tactic(auto)]

mod arithmetic;
mod comparison;
mod limits;
mod operands;
mod operators;
mod store;

pub use limits::TEXT_LIMIT;
pub use store::Store;
