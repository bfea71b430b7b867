//! What a line tells of a link.
use crate::nak::Nak;

/// Why a hub refused a device that asked to join.
#[derive(Clone, Copy, Debug, PartialEq, Eq)]
pub enum JoinRefusal {
    /// Its VMAC is held, or is the hub's own.
    DuplicateVmac,
    /// The hub's rows are taken.
    TableFull,
    /// The hub has stopped.
    Stopped,
}

/// Why a link ended that was neither refused nor denied.
#[derive(Clone, Copy, Debug, PartialEq, Eq)]
pub enum Cause {
    /// The peer closed the link.
    PeerClosed,
    /// The peer asked to be disconnected.
    PeerLeft,
    /// The peer sent a text message.
    TextMessage,
    /// No Connect-Request joined within the connect wait.
    ConnectWait,
    /// No message came for twice the heartbeat.
    Idle,
    /// A unicast found the connection's outbox full.
    OutboxFull,
    /// A connection of the same device joined in its place.
    Replaced,
    /// The hub asked the peer to leave, and no takeover of the connection is known: the hub stopped.
    Disconnected,
    /// The hub makes no more calls.
    HubWorn,
    /// A line couldn't be put into the session's journal.
    JournalFault,
    /// A call on the link failed.
    LinkFault,
    /// There was no memory.
    NoMemory,
    /// As many receives were made as a session may make.
    Spent,
    /// The hub closed the link for something else.
    Other,
}

/// Why a stream was turned away before it was a link.
#[derive(Clone, Copy, Debug, PartialEq, Eq)]
pub enum Turning {
    /// Its request doesn't offer the sub-protocol.
    NoProtocol,
    /// Its handshake wasn't done in its time.
    Late,
    /// Its head has more octets than are taken.
    LongHead,
    /// There is no descriptor for it or its link.
    NoDescriptor,
    /// The table of handshakes was full, and its was the oldest.
    PushedOut,
    /// There was no memory.
    NoMemory,
    /// Its handshake failed otherwise.
    Failed,
}

/// A kind of lines of which at most ten a second are told.
#[derive(Clone, Copy, Debug, PartialEq, Eq)]
pub enum Limited {
    /// NAKs.
    Naks,
    /// Devices that the policy doesn't admit.
    Denials,
    /// Streams that were turned away for this.
    Turned(Turning),
}

/// What a line tells of a link.
#[derive(Clone, Copy, Debug, PartialEq, Eq)]
pub enum LogEvent {
    /// It joined, as a connection.
    Joined,
    /// Its connection took the place of this one, which is of the same device.
    TookOver(u64),
    /// The hub refused it.
    Refused(JoinRefusal),
    /// The policy doesn't admit its device.
    Denied,
    /// It ended.
    Ended(Cause),
    /// It got no session.
    NoSession,
    /// The hub answered its Connect-Request with this NAK.
    Nak(Nak),
    /// It was turned away before it was a link.
    Turned(Turning),
    /// So many lines of this kind were left out.
    LeftOut(Limited, u64),
}
