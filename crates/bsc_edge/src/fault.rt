//! Why calls on the outside fail.
use thiserror::Error;

/// Why a call on a link or an acceptor failed.
#[derive(Clone, Copy, Debug, PartialEq, Eq, Error)]
pub enum LinkFault {
    /// The outside failed, and the object's count of faults has risen.
    #[error("a link failed")]
    Failed,
    /// There was no memory.
    #[error("out of memory")]
    NoMemory,
}

/// Why a file wasn't loaded.
#[derive(Clone, Copy, Debug, PartialEq, Eq, Error)]
pub enum FileFault {
    /// There is no such file, or reading it failed; the count of faults has risen.
    #[error("a file could not be read")]
    Failed,
    /// There was no memory.
    #[error("out of memory")]
    NoMemory,
}
