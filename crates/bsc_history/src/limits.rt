//! What is fixed when a hub is made.
use bsc_octets::Identity;

/// How many rows a hub has at most. Code, clauses and proofs all have the number from here, as they have the next four.
pub const MOST_ROWS: u64 = 1024;

/// How many frames an outbox holds at most.
pub const MOST_OUTBOX: u64 = 1024;

/// How many entries are made at most before calls are answered Worn.
pub const MOST_CALLS: u64 = 1 << 52;

/// How many callers there are at most.
pub const MOST_CALLERS: u64 = 1 << 62;

/// How many octets the outboxes of a hub hold together at most where settings or a script say what it is limited to: its
/// rows, times the frames of an outbox, times its longest message.
pub const MOST_OCTETS: u64 = 1 << 30;

/// The limits of a hub.
#[derive(Clone, Copy, Debug, PartialEq, Eq)]
pub struct Limits {
    /// How many connections there may be that haven't left: 1 to `MOST_ROWS`.
    pub rows: u32,
    /// How many frames an outbox holds: 2 to `MOST_OUTBOX`.
    pub outbox: u32,
    /// How many entries are made before calls are answered Worn: 1 to `MOST_CALLS`.
    pub calls: u64,
    /// How many callers there may be: 1 to `MOST_CALLERS`.
    pub callers: u64,
}

/// What is fixed when a hub is made: its own identity, and its limits.
#[derive(Clone, Copy, Debug, PartialEq, Eq)]
pub struct About {
    pub hub: Identity,
    pub limits: Limits,
}
