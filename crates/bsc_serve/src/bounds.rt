//! How long a hub waits for a link, and how many sessions it may have.

/// How long the acceptor is asked for a link at a time, in milliseconds. Code, clauses and proofs all have the number from here.
pub const WAIT_MS: u32 = 20;

/// For how many sessions at once the program has places. Code and clauses both have the number from here.
pub const SESSIONS: u64 = 2048;
