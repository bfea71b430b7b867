//! How much is done at once.

/// So many lines that ask for nothing are looked at in one call.
pub const MOST_SKIPPED: u32 = 1_000;

/// So many times an inbox is asked at most where the lines that weren't read are counted.
pub const MOST_COUNTED: u32 = 65_536;
