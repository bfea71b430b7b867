//! What comes out of a worker's thread.
use bsc_hub::Pass;

/// Why a worker was cut short.
#[derive(Clone, Copy, Debug, PartialEq, Eq)]
pub(crate) enum Cut {
    /// Memory ran out.
    NoMemory,
    /// A connect was refused, or the hub had made as many calls as it may.
    Short,
}

/// A worker that has run: its pass, and how many frames it took, where it wasn't cut short.
#[derive(Drop)]
pub(crate) struct Work {
    pub(crate) pass: Pass,
    pub(crate) taken: Result<u64, Cut>,
}
