//! What a name means before anything is said of it.

ghost use Rattle.std.specs.Prelude.{◌≡◌};

/// A kind of meaning that has a first one, which each new name gets.
pub trait FreshMeaning {
    // The first meaning.
    ghost first: { Self };

    /// The first meaning.
    fn fresh() -> Self
        ensures { result ≡ first };
}
