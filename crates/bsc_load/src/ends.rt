//! How workloads end.
use bsc_history::Counts;
use thiserror::Error;

/// What a workload came to.
#[derive(Clone, Copy, Debug, PartialEq, Eq)]
pub struct LoadEnd {
    /// What the hub counted up to its stop.
    pub counts: Counts,
    /// How many octets of NPDU all workers took; it stays at the greatest number of its type once it is there.
    pub octets: u64,
}

/// Why a workload didn't come to its end.
#[derive(Clone, Copy, Debug, PartialEq, Eq, Error)]
pub enum LoadStop {
    /// Memory ran out. The hub wasn't stopped.
    #[error("no memory")]
    NoMemory,
    /// So many workers got no pass, were refused, or met a hub that had made as many calls as it may. The hub is
    /// stopped.
    #[error("{workers} workers were cut short")]
    Short { workers: u32 },
    /// The hub had been stopped before, by the entry at this place.
    #[error("the hub had been stopped, by entry {at}")]
    Stopped { at: u64 },
}
