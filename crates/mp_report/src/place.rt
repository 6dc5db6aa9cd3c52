//! Places in sources.

/// A place in a source: a file and a line of it.
#[derive(Clone, Copy, Debug, PartialEq, Eq)]
pub struct Place {
    /// Source files are counted from 1 in the order in which they were asked for. File 0 is none of them: it
    /// stands for what comes before the first, and is shown as `mpost`.
    pub file: u32,
    /// Lines are counted from 1; line 0 is before any.
    pub line: u32,
}
