//! How much a stay takes.

/// How often a stay takes at most. Code, clauses and proofs all have the number from here.
pub const TAKES: u32 = 64;
