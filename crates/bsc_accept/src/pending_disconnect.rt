//! A Disconnect-Request that was put.

/// A Disconnect-Request that was put, and whose answer hasn't come.
#[derive(Clone, Copy, Debug, PartialEq, Eq)]
pub struct PendingDisconnect {
    /// When it was put, in milliseconds.
    pub since: u64,
    /// Its Message ID, which its answer has too.
    pub id: u16,
}
