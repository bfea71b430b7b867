//! How many nodes and links a network has at most, how many steps are made in it, and how long its nodes wait.

/// How many nodes a network has at most. Code, clauses and proofs all have the number from here.
pub const NODES: u32 = 64;

/// How many links a network has at most. Code, clauses and proofs all have the number from here.
pub const LINKS: usize = 4096;

/// How many steps are made in a network at most: 2^63. Code, clauses and proofs all have the number from here.
pub const STEPS: u64 = 1 << 63;

/// How long a node waits at least before it dials a hub again, in milliseconds. Code, clauses and proofs all have the number
/// from here.
pub const LEAST_WAIT_MS: u32 = 2_000;

/// How long it waits at most, in milliseconds. Code, clauses and proofs all have the number from here.
pub const GREATEST_WAIT_MS: u32 = 30_000;
