//! What becomes of a frame at a row.
use bsc_history::Look;

/// What becomes of a frame at a row.
#[derive(Clone, Copy, Debug, PartialEq, Eq)]
pub(crate) enum Fate {
    /// The frame isn't meant for its connection.
    Unmeant,
    /// The frame has more octets than the connection `conn` takes.
    TooLong { conn: u64 },
    /// It entered the outbox; the look is that of its own push.
    Entered(Look),
    /// By the look of its push the outbox was full.
    FoundFull(Look),
}
