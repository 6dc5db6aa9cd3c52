//! Places in sources, the errors that a source can end by, and the one line that an error prints.
//!
//! `NAME:LINE: error N Variant` and the details that the error carries, each after one space: words as they
//! are, texts in double quotes, whole numbers in decimal, residuals as scaled numbers.
#![tactic(auto)]

mod error;
mod line;
mod place;

pub use error::{Cap, SourceError};
pub use line::write_error;
pub use place::Place;
