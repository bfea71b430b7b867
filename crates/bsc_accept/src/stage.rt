//! What a machine remembers of its events.
use crate::pending_disconnect::PendingDisconnect;

/// What a machine waits for, with what it has to remember for that.
#[derive(Clone, Copy, Debug, PartialEq, Eq)]
pub(crate) enum Stage {
    /// For a Connect-Request.
    AwaitingRequest,
    /// For the word on who asked by the Connect-Request with this Message ID: `joined` or `refused`.
    Asked { id: u16 },
    /// For messages.
    Connected,
    /// For the answer to a Disconnect-Request.
    Disconnecting(PendingDisconnect),
    /// For nothing: it closed.
    Idle,
}
