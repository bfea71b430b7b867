//! What a hub of a script is limited to, and how long the messages are that its nodes take.

/// How many rows each hub has. Code, clauses and proofs all have the number from here, as they have the next three.
pub const ROWS: u32 = 256;

/// How many frames an outbox of each hub holds.
pub const OUTBOX: u32 = 64;

/// The longest message that each node takes, in octets.
pub const MAX_BVLC: u16 = 1600;

/// The longest NPDU that each node takes, in octets.
pub const MAX_NPDU: u16 = 1497;
