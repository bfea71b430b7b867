//! What a port is told, beside messages.
use bsc_history::{End, Refusal};

/// What a port is told, beside messages. Times are in milliseconds.
#[derive(Clone, Copy, Debug, PartialEq, Eq)]
pub enum PortEvent {
    /// The hub let the device join that asked.
    Joined,
    /// The hub refused it.
    Refused(Refusal),
    /// The hub has ended the connection, and its outbox is empty.
    Ended { now: u64, ending: End },
    /// Time has passed.
    Tick { now: u64 },
}
