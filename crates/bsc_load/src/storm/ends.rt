//! How storms end.
use bsc_history::Counts;

/// What a storm came to.
#[derive(Clone, Copy, Debug, PartialEq, Eq)]
pub struct StormEnd {
    /// What the hub counted up to its stop.
    pub counts: Counts,
    /// How many frames the outlets of the workers that take over gave.
    pub taken: u64,
}
