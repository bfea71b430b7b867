//! What goes into a worker's thread, and what comes out of it.
use bsc_hub::Pass;

/// Why a worker was cut short.
#[derive(Clone, Copy, Debug, PartialEq, Eq)]
pub(crate) enum Cut {
    /// Memory ran out.
    NoMemory,
    /// A connect was refused, or the hub had made as many calls as it may.
    Short,
}

/// A worker that is to run: its number, and its pass.
#[derive(Drop)]
pub(crate) struct Job {
    pub(crate) index: u16,
    pub(crate) pass: Pass,
}

/// A worker that has run: its pass, and how many octets it took, where it wasn't cut short.
#[derive(Drop)]
pub(crate) struct Work {
    pub(crate) index: u16,
    pub(crate) pass: Pass,
    pub(crate) octets: Result<u64, Cut>,
}

/// What workers came to together.
#[derive(Clone, Copy)]
pub(crate) struct Sum {
    /// How many octets those took that weren't cut short.
    pub(crate) octets: u64,
    /// How many were cut short, but for want of memory.
    pub(crate) short: u32,
    /// Whether memory ran out in one.
    pub(crate) lacks_memory: bool,
}
