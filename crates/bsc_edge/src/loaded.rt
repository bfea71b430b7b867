//! What was asked of those who read files.
use crate::fault::FileFault;
use bsc_octets::Octets;

/// One call that reads a whole file.
#[derive(Debug, Drop)]
pub struct Loaded {
    /// The path of the file.
    pub path: Octets,
    /// What it held, or why that can't be told.
    pub answer: Result<Octets, FileFault>,
}
