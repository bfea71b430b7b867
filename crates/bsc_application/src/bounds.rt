//! How much is asked for in a turn.

/// So many requests of an application are taken before a turn at most: links are heard between any two so many. Code, clauses and
/// proofs all have the number from here.
pub const MOST_REQUESTS: u64 = 256;
