//! How many names of peers may be open, and how long the hub of a script waits.

/// How many names may be open at once. Code, clauses and proofs all have the number from here, as they have
/// the next three.
pub const MOST_NAMES: usize = 2048;

/// How long the hub of a script waits for a Connect-Request, in milliseconds.
pub const CONNECT_WAIT_MS: u32 = 10_000;

/// How long it waits for the answer to a Disconnect-Request, in milliseconds.
pub const DISCONNECT_WAIT_MS: u32 = 10_000;

/// Its heartbeat, in milliseconds.
pub const HEARTBEAT_MS: u32 = 300_000;
