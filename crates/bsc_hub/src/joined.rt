//! What a connect answers.
use bsc_history::{Refusal, Worn};
use bsc_ring::Outlet;
use thiserror::Error;

/// What a connect that joined is told.
#[derive(Drop)]
pub struct Joined {
    /// The place of its entry in the history, counted from 0.
    pub at: u64,
    /// The number of the connection.
    pub conn: u64,
    /// The connection that it replaced, if it did.
    pub replaced: Option<u64>,
    /// The end of its outbox from which frames are taken.
    pub outlet: Outlet,
}

/// Why a connect didn't join.
#[derive(Clone, Copy, Debug, PartialEq, Eq, Error)]
pub enum ConnectRefusal {
    /// Memory ran out for an outbox. The hub wasn't called.
    #[error("no memory for an outbox")]
    NoMemory,
    /// The hub has made as many calls as it may; no entry was made.
    #[error("the hub has made as many calls as it may")]
    Worn(Worn),
    /// The refusal is the entry at the place `at`.
    #[error("the connect was refused, by entry {at}")]
    Refused { at: u64, refusal: Refusal },
}
