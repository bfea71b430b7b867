//! What there is to say of a ring whose two ends are gone.

/// What there is to say of a ring whose two ends are gone.
#[derive(Clone, Copy, Debug, PartialEq, Eq)]
pub struct Remains {
    /// How many items were taken.
    pub taken: u64,
    /// How many were pushed and not taken.
    pub left: u64,
}
