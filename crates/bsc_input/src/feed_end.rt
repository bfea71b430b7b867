//! How the reading of an input ends.

/// How the reading of an input ends.
#[derive(Clone, Copy, Debug, PartialEq, Eq)]
pub enum FeedEnd {
    /// All of it was read.
    All,
    /// A read failed.
    Failed,
    /// There was no memory for a line.
    NoMemory,
    /// It has more lines than can be counted.
    TooMany,
}
