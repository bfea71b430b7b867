//! Jobs that weren't started.
use thiserror::Error;

/// A job that wasn't started comes back.
#[derive(Debug, Drop, Error)]
pub enum Unstarted<J> {
    /// There is no thread for it, or as many run as may; the spawner's count of faults has risen.
    #[error("there is no thread for a job")]
    Failed(J),
    /// There was no memory.
    #[error("no memory for a job")]
    NoMemory(J),
}
