//! Rows of the public calls of the crates below the evaluator: worked values from outside, and that memory is
//! had. There are only tests here, so that each of those crates is proved once and not twice.

#![tactic(auto)]

#[cfg(test)]
mod expand;
#[cfg(test)]
mod faults;
#[cfg(test)]
mod files;
#[cfg(test)]
mod forms;
#[cfg(test)]
mod input;
#[cfg(test)]
mod macros;
#[cfg(test)]
mod report;
#[cfg(test)]
mod roots;
#[cfg(test)]
mod solver;
#[cfg(test)]
mod symbols;
#[cfg(test)]
mod tokens;
#[cfg(test)]
mod values;
#[cfg(test)]
mod variables;
