//! What a hub counts.

/// What a hub counts over the entries of its history. Each stays below 2^63.
#[derive(Clone, Copy, Debug, PartialEq, Eq)]
pub struct Counts {
    /// Connects that joined.
    pub joined: u64,
    /// Connects that replaced a connection.
    pub replaced: u64,
    /// Connects that were refused.
    pub refused: u64,
    /// Forwards of a unicast.
    pub unicasts: u64,
    /// Forwards of a broadcast.
    pub broadcasts: u64,
    /// Frames that joined an outbox.
    pub appended: u64,
    /// Forwards that appended nowhere.
    pub dropped: u64,
    /// Connections that ended as full.
    pub full: u64,
    /// Broadcasts that a connection missed, as its outbox was full: one for each connection that a
    /// reply names as missed.
    pub missed: u64,
}
