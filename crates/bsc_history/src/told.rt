//! What callers of a hub are told beside a reply.
use thiserror::Error;

/// The history has `calls` entries, no fewer than the hub's limits allow: no call makes a further entry but
/// a leave and the stop.
#[derive(Clone, Copy, Debug, PartialEq, Eq, Error)]
#[error("the hub has made {calls} calls, as many as it may")]
pub struct Worn {
    pub calls: u64,
}

/// The hub has been stopped before, by the entry at the place `at`, counted from 0.
#[derive(Clone, Copy, Debug, PartialEq, Eq, Error)]
#[error("the hub has been stopped already, by entry {at}")]
pub struct AlreadyStopped {
    pub at: u64,
}

/// An answer, with the place of its entry in the history, counted from 0.
#[derive(Clone, Copy, Debug, PartialEq, Eq)]
pub struct Told<T> {
    pub at: u64,
    pub said: T,
}
