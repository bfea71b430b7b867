//! Rows.
use bsc_history::{Connection, End};

/// A connection that hasn't left.
#[derive(Clone, Copy, Debug, PartialEq, Eq)]
pub struct Row {
    pub(crate) connection: Connection,
    /// How it has ended, if it has.
    pub(crate) ending: Option<End>,
    /// How many frames entered its outbox.
    pub(crate) entered: u64,
    /// How many of them the newest look at it found taken.
    pub(crate) looked: u64,
}
