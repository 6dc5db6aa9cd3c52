use thiserror::Error;

/// Why a sum, a product or a quotient of linear forms has no value.
#[derive(Clone, Copy, Debug, PartialEq, Eq, Drop, Error)]
pub enum FormFault {
    /// The constant has a magnitude of 2^31 units or more.
    #[error("overflow")]
    Overflow,
    /// A coefficient has a magnitude of 2^44 units or more.
    #[error("coefficient too large")]
    CoefficientTooLarge,
    /// The divisor is 0.
    #[error("division by zero")]
    DivisionByZero,
}
