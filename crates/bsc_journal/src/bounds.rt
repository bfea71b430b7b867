//! How large journals may be.

/// The most octets that a line may have, without its end. Code, clauses and proofs all have the number from here, as they have
/// the next one.
pub const MOST_IN_LINE: usize = 300_000;

/// The most octets that all journals may have together, with the ends of lines: 2^28.
pub const MOST_IN_ALL: usize = 1 << 28;
