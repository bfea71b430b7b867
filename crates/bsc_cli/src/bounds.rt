//! How great the numbers may be that words say.

/// For how many links a hub is served at most, where a number is said. Code, clauses and proofs all have the number from here.
pub const SESSIONS: u64 = 1_000_000;

/// To how many octets the file of a journal may be limited at least. A line is shorter.
pub const LEAST_OCTETS: u64 = 4_096;

/// To how many octets it may be limited at most.
pub const MOST_OCTETS: u64 = 1_000_000_000_000;

/// How many workers a workload has at most: `WORKERS` of `bsc_load`, which `bsc_commands` proves to be the same number.
pub const WORKERS: u64 = 512;
