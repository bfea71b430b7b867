//! The five calls of a hub.
use bsc_octets::{Identity, Octets};

/// A call of a hub.
#[derive(Debug, Drop)]
pub enum Call {
    /// A peer asks to join.
    Connect { who: Identity },
    /// A connection hands in a frame, as it came from its peer.
    Forward { conn: u64, frame: Octets },
    /// A connection leaves: `taken` is how many frames were taken from its outbox, and `empties` how often
    /// the outbox was found empty.
    Leave { conn: u64, taken: u64, empties: u64 },
    /// The hub stops.
    Stop,
    /// The hub is asked for its counts.
    Count,
}
