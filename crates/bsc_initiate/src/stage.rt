//! What a machine remembers of its events.
use bsc_accept::PendingDisconnect;

/// What a machine waits for, with what it has to remember for that.
#[derive(Clone, Copy, Debug, PartialEq, Eq)]
pub(crate) enum Stage {
    /// For its WebSocket to open.
    AwaitingWebsocket,
    /// For the answer to the Connect-Request with this Message ID.
    AwaitingAccept { id: u16 },
    /// For messages; `put` where it put a Heartbeat-Request since the last one.
    Connected { put: bool },
    /// For the answer to a Disconnect-Request.
    Disconnecting(PendingDisconnect),
    /// For nothing: it closed.
    Idle,
}
