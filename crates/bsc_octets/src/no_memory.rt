//! Memory ran out: the one answer whose cause no contract states.
use std::alloc::{AllocError, AllocFailed};
use thiserror::Error;

/// Memory ran out. It is a variant of its own wherever it can be answered.
#[derive(Clone, Copy, Debug, PartialEq, Eq, Error)]
#[error("out of memory")]
pub struct NoMemory;

impl From<AllocError> for NoMemory {
    fn from(_error: AllocError) -> NoMemory {
        NoMemory
    }
}

impl<T: Drop> From<AllocFailed<T>> for NoMemory {
    fn from(_failed: AllocFailed<T>) -> NoMemory {
        NoMemory
    }
}
