//! How WebSockets are closed.
use crate::reason::Reason;

/// How a WebSocket is closed: its close code (RFC 6455, section 7.4.1) and the reason whose text goes with it.
#[derive(Clone, Copy, Debug, PartialEq, Eq)]
pub struct Closing {
    /// The close code.
    pub code: u16,
    /// The reason.
    pub reason: Reason,
}

impl Closing {
    /// 1000: the connection did what it was for.
    pub const NORMAL: Closing = Closing {
        code: 1000,
        reason: Reason::Nothing,
    };

    /// 1001: this end goes away.
    pub const GOING_AWAY: Closing = Closing {
        code: 1001,
        reason: Reason::Nothing,
    };

    /// 1003: a text message came, and BVLC messages are binary ones.
    pub const NOT_BINARY: Closing = Closing {
        code: 1003,
        reason: Reason::Nothing,
    };

    /// 1008: there is no room for one connection more.
    pub const TABLE_FULL: Closing = Closing {
        code: 1008,
        reason: Reason::TableFull,
    };

    /// 1008: the hub makes no more calls.
    pub const HUB_WORN: Closing = Closing {
        code: 1008,
        reason: Reason::HubWorn,
    };

    /// 1008: the connect wait has passed.
    pub const CONNECT_WAIT: Closing = Closing {
        code: 1008,
        reason: Reason::ConnectWait,
    };

    /// 1008: twice the heartbeat has passed without a message.
    pub const IDLE: Closing = Closing {
        code: 1008,
        reason: Reason::Idle,
    };

    /// 1008: the outbox was full.
    pub const OUTBOX_FULL: Closing = Closing {
        code: 1008,
        reason: Reason::OutboxFull,
    };

    /// 1008: the peer isn't the one that was wanted.
    pub const WRONG_PEER: Closing = Closing {
        code: 1008,
        reason: Reason::WrongPeer,
    };

    /// 1008: a policy doesn't admit the device.
    pub const POLICY: Closing = Closing {
        code: 1008,
        reason: Reason::Policy,
    };

    /// 1011: a line couldn't be put into the journal.
    pub const UNRECORDED: Closing = Closing {
        code: 1011,
        reason: Reason::Nothing,
    };

    /// 1011: there was no memory.
    pub const NO_MEMORY: Closing = Closing {
        code: 1011,
        reason: Reason::NoMemory,
    };
}
