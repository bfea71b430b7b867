//! What a split answers where no number is left.
use thiserror::Error;

/// All numbers are drawn: the load found `drawn`, which is as many as there may be callers.
#[derive(Clone, Copy, Debug, PartialEq, Eq, Error)]
#[error("all {drawn} numbers of callers are drawn")]
pub struct NumbersSpent {
    pub drawn: u64,
}
