/// What comes of a wish for one more unknown.
#[derive(Clone, Copy, Debug, PartialEq, Eq)]
pub enum Fresh {
    /// The unknown with this serial was made.
    Made(u32),
    /// There are 1,000,000 unknowns already.
    Limit,
}
