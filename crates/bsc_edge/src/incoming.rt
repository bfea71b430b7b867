//! What links give.
use bsc_octets::Octets;

/// What a link gives to one who receives.
#[derive(Debug, Drop)]
pub enum Incoming {
    /// The octets of a binary message.
    Message(Octets),
    /// A text message came.
    Text,
    /// Nothing came within the wait.
    Quiet,
    /// The peer closed the link.
    Closed,
}
