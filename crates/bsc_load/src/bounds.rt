//! How large a workload is.

/// How many workers a workload has at most. Code, clauses and proofs all have the number from here, as they have the next two.
pub const WORKERS: u32 = 512;

/// How many rows the hub has that `load` makes: two for each worker.
pub const ROWS: u32 = 2 * WORKERS;

/// How many frames an outbox of that hub holds.
pub const OUTBOX: u32 = 64;
