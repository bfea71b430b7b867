//! The least of the longest messages.

/// The longest message that a hub or a node of this program takes has at least so many octets. Code, clauses and proofs all
/// have the number from here.
pub const LEAST_BVLC: u16 = 64;
