//! How small and how great the times and the turns of settings may be, and how long the name of a group.

/// The least of the times, in milliseconds. Code, clauses and proofs all have the number from here, as they have the next three.
pub const LEAST_MS: u64 = 100;

/// The greatest of the times, in milliseconds: an hour.
pub const GREATEST_MS: u64 = 3_600_000;

/// How many turns a session or a node makes at most, and how many where its settings don't say: 2^40.
pub const MOST_TURNS: u64 = 1 << 40;

/// How many letters the name of a group has at most.
pub const MAX_GROUP_LEN: usize = 16;

/// How long a hub isn't dialled after one failure where the settings of a node don't say, in milliseconds.
pub const RECONNECT_MS: u64 = 2_000;
