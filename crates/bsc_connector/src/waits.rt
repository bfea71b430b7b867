//! With what a connector is made.

/// Whether there is a failover, and how long to wait before the next attempt, in milliseconds.
#[derive(Clone, Copy, Debug, PartialEq, Eq)]
pub struct Waits {
    /// Whether there is a failover.
    pub failover: bool,
    /// The wait after one failure (Annex AB, "Minimum Reconnect Time"). It doubles with each failure in a row.
    pub least: u32,
    /// The longest wait (Annex AB, "Maximum Reconnect Time").
    pub greatest: u32,
}
