//! A file in memory.
use bsc_octets::Octets;

/// A file in memory: its path and what it holds.
#[derive(Debug, Drop)]
pub struct MemFile {
    pub path: Octets,
    pub octets: Octets,
}
