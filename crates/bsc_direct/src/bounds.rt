//! How many slots there are.

/// How many slots of direct connections a node has. Code, clauses and proofs all have the number from here.
pub const SLOTS: u32 = 64;
