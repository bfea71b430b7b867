//! How long lines, inputs and names may be, and how late the clock of a script.

/// The most octets that a line may have, without its end. Code, clauses and proofs all have the number from here, as they have
/// the next four.
pub const MAX_LINE_LEN: usize = 140_000;

/// The most octets that a whole input may have: 2^40.
pub const MAX_INPUT_LEN: u64 = 1 << 40;

/// The most octets that a name may have.
pub const MAX_NAME_LEN: usize = 16;

/// The latest time that the clock of a script may be set to, in milliseconds: 10^15.
pub const LATEST: u64 = 1_000_000_000_000_000;

/// The most octets that one read of a feed gives: 64 KiB.
pub const CHUNK_LEN: usize = 65_536;
