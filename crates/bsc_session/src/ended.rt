//! What a session comes to.
use crate::why::Why;

/// How a session ended.
#[derive(Clone, Copy, Debug, PartialEq, Eq)]
pub struct Ended {
    pub why: Why,
    /// Its connection, if it joined.
    pub conn: Option<u64>,
    /// How many frames it took from its outbox.
    pub taken: u64,
    /// How often it found its outbox empty.
    pub empties: u64,
    /// How many receives were made.
    pub turns: u64,
}
