//! Why a call has no value.

use thiserror::Error;

/// Why a root, an angle, a logarithm or an exponential has no value.
#[derive(Clone, Copy, Debug, PartialEq, Eq, Drop, Error)]
pub enum TrigFault {
    /// The function has no value there.
    #[error("out of domain")]
    OutOfDomain,
    /// The magnitude is 2^31 units or more.
    #[error("overflow")]
    Overflow,
}
