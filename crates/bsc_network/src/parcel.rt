//! What stands on the ways of links.
use bsc_octets::Octets;

/// What can arrive at an end of a link.
#[derive(Debug, Drop)]
pub enum Content {
    /// The WebSocket has opened: this comes first to the node that dialled.
    Opened,
    /// A peer dialled: this comes first to a node that was dialled.
    Arrived,
    /// A binary message.
    Message(Octets),
    /// The other end closed the link.
    Closed,
}

/// Something on a way, with a place: that of the step by which it was put there, counted from 0. A frame that a hub
/// passes on keeps the place of the step by which a node put it.
#[derive(Debug, Drop)]
pub struct Parcel {
    pub content: Content,
    pub sent_at: u64,
}
