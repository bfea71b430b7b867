//! How often a node renews its VMAC.

/// How often a node renews its VMAC at most, since a hub accepted it. Code, clauses and proofs all have the number from here.
pub const RENEWALS: u8 = 8;
