//! How many VMACs are held.

/// How many VMACs are held at most. Code, clauses and proofs all have the number from here.
pub const ROOM: usize = 256;
