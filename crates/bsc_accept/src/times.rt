//! How long a peer waits.

/// How long a peer waits, in milliseconds.
#[derive(Clone, Copy, Debug, PartialEq, Eq)]
pub struct Times {
    /// For a Connect-Request, from the start on (Annex AB, "Connection Wait Timeout").
    pub connect_wait: u32,
    /// For the answer to a Disconnect-Request (Annex AB, "Disconnect Wait Timeout").
    pub disconnect_wait: u32,
    /// Between two messages (Annex AB, "Heartbeat Timeout"). Twice as long without a message ends a connection.
    pub heartbeat: u32,
}
