/// What an equation comes to.
#[derive(Clone, Copy, Debug, PartialEq, Eq)]
pub enum Equated {
    /// One more unknown is dependent.
    Accepted,
    /// The equation holds already, but for this difference, of at most 64 units of 2^-16.
    Redundant(i32),
    /// The equation is off by this difference, of more than 64 units of 2^-16.
    Inconsistent(i32),
    /// The constant of a dependent form would reach a magnitude of 2^31 units.
    Overflow,
    /// A coefficient of a dependent form would reach a magnitude of 2^44 units.
    CoefficientTooLarge,
    /// The dependent forms would have more than 4,000,000 terms.
    Limit,
}
