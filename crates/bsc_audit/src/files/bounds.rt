//! How many entries an audit of files takes, and how much of a file is read at once.

/// The most entries that an audit of files takes: 2^31. Code, clauses and proofs all have the number from here.
pub const MOST_ENTRIES: u64 = 1 << 31;

/// How much of a file is read at once.
pub(crate) const PIECE_LEN: usize = 4096;

/// The greatest offset in a file: 2^63.
pub(crate) const MOST_OFFSET: u64 = 1 << 63;
