//! What the end of a group undoes.

/// What was undone of a group.
#[derive(Debug, Drop)]
pub enum Closed<M> {
    /// The symbol of that number has its old meaning again, and gave up this one.
    Meaning(u32, M),
    /// The internal of that number has its old value again.
    Number(u32),
    /// All was undone before: the group has ended.
    Boundary,
    /// No group is open.
    NoGroup,
}
