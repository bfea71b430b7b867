//! How connections end.

/// How a connection ended.
#[derive(Clone, Copy, Debug, PartialEq, Eq)]
pub enum End {
    /// It left.
    Left,
    /// A connection of the same device joined in its place.
    Replaced,
    /// A unicast was meant for it while its outbox was full.
    Full,
    /// The hub stopped.
    Stopped,
}
