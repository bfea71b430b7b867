//! When a message comes.

/// The phase of a connection, as the side that receives sees it.
#[derive(Clone, Copy, Debug, PartialEq, Eq)]
pub enum Phase {
    /// The other side has yet to send its Connect-Request.
    AwaitingRequest,
    /// A Connect-Request was sent, and its answer is awaited.
    AwaitingAccept,
    /// The connection is made.
    Connected,
    /// A Disconnect-Request was sent, and its answer is awaited.
    Disconnecting,
}
