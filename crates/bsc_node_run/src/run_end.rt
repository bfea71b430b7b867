//! How a run ends.

/// How a run ends.
#[derive(Clone, Copy, Debug, PartialEq, Eq)]
pub enum RunEnd {
    /// The node has ended.
    Finished,
    /// It made as many turns as it may.
    Spent,
}
