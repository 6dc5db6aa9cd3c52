//! What a group saves.

/// What is to be undone at the end of a group. Contracts see a list of these; no call takes or answers one.
#[derive(Debug, Drop)]
pub enum Saved<M> {
    /// A group begins.
    Boundary,
    /// A symbol, by its number, and the meaning that it had.
    Meaning(u32, M),
    /// An internal, by its number, and the value that it had.
    Number(u32, i32),
}
