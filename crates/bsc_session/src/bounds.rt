//! How much a turn takes, and how long it waits.

/// How often the outlet is asked in a turn, and so how many frames it takes at most. Code, clauses and proofs all have the
/// number from here.
pub const TAKES: u64 = 16;

/// How long a receive waits at most, in milliseconds. A wake ends it, so no frame waits so long. A wait of the machine
/// that is over and a stop of the hub are seen so much later at most. With less, sessions that have nothing to do cost
/// more: 1,000 of them make 1,000 turns a second.
pub const WAIT_MS: u32 = 1_000;
