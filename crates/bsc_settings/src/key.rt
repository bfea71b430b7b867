//! The keys of a settings document: what each is called, and its row. `specs/Table.antt` has the names and the table; that these
//! are its rows is proved where they are read.
use crate::bounds::{GREATEST_MS, LEAST_MS, MOST_TURNS, RECONNECT_MS};
use bsc_history::{MOST_OUTBOX, MOST_ROWS};
use bsc_octets::LEAST_BVLC;
use std::fmt::{self, Display, Formatter, Write};

/// What a fault in the settings is named by: a key of a table, the product of the limits, or whatever the tables
/// don't have. The order is that in which faults are looked for.
#[derive(Clone, Copy, Debug, PartialEq, Eq)]
pub enum KeyName {
    /// The hub's own VMAC.
    HubVmac,
    /// The hub's own Device UUID.
    HubUuid,
    /// The TCP port that the hub binds.
    HubPort,
    /// The Maximum BVLC Length of the hub, in octets.
    HubMaxBvlc,
    /// The Maximum NPDU Length of the hub, in octets.
    HubMaxNpdu,
    /// How many connections there may be that haven't left.
    HubRows,
    /// How many frames an outbox holds.
    HubOutbox,
    /// How long a Connect-Request is waited for, in milliseconds.
    HubConnectWaitMs,
    /// How long the answer to a Disconnect-Request is waited for, in milliseconds.
    HubDisconnectWaitMs,
    /// The time of a heartbeat, in milliseconds.
    HubHeartbeatMs,
    /// How many turns a session makes at most.
    HubTurns,
    /// The node's VMAC when it starts.
    NodeVmac,
    /// The node's own Device UUID.
    NodeUuid,
    /// The URI of the primary hub.
    NodePrimary,
    /// The URI of the failover hub.
    NodeFailover,
    /// The TCP port that the node binds for direct connections.
    NodeDirectPort,
    /// The URIs at which the node accepts direct connections.
    NodeDirectUris,
    /// The Maximum BVLC Length of the node, in octets.
    NodeMaxBvlc,
    /// The Maximum NPDU Length of the node, in octets.
    NodeMaxNpdu,
    /// How long an accept or a Connect-Request is waited for, in milliseconds.
    NodeConnectWaitMs,
    /// How long the answer to a Disconnect-Request is waited for, in milliseconds.
    NodeDisconnectWaitMs,
    /// The time of a heartbeat, in milliseconds.
    NodeHeartbeatMs,
    /// How long a hub is not dialled after one failure, in milliseconds.
    NodeLeastReconnectMs,
    /// How long a hub is not dialled after many failures in a row, in milliseconds.
    NodeGreatestReconnectMs,
    /// How many turns a node makes at most.
    NodeTurns,
    /// The members of the policy: a list, each with a device, an address and a group.
    PolicyMember,
    /// The rules of the policy: a list, each with what it does and its two groups.
    PolicyRule,
    /// The product of the rows, the outbox and the Maximum BVLC Length: more octets than the outboxes may hold.
    HubProduct,
    /// A key or a table that settings don't have.
    Unknown,
}

impl KeyName {
    ghost use Rattle.std.specs.Prelude.{◌≡◌};
    ghost use Rattle.bsc_settings.specs.Table.{name_of};

    /// The name of the key: its table, a full stop, and its word; `policy.member` and `policy.rule` for all that is at fault in
    /// these lists, `hub.product` for the product of the limits,
    /// and `unknown` for what settings don't have.
    pub fn text(self) -> &'static str
        ensures { result.now ≡ name_of self }
    {
        match self {
            KeyName::HubVmac => "hub.vmac",
            KeyName::HubUuid => "hub.uuid",
            KeyName::HubPort => "hub.port",
            KeyName::HubMaxBvlc => "hub.max_bvlc",
            KeyName::HubMaxNpdu => "hub.max_npdu",
            KeyName::HubRows => "hub.rows",
            KeyName::HubOutbox => "hub.outbox",
            KeyName::HubConnectWaitMs => "hub.connect_wait_ms",
            KeyName::HubDisconnectWaitMs => "hub.disconnect_wait_ms",
            KeyName::HubHeartbeatMs => "hub.heartbeat_ms",
            KeyName::HubTurns => "hub.turns",
            KeyName::NodeVmac => "node.vmac",
            KeyName::NodeUuid => "node.uuid",
            KeyName::NodePrimary => "node.primary",
            KeyName::NodeFailover => "node.failover",
            KeyName::NodeDirectPort => "node.direct_port",
            KeyName::NodeDirectUris => "node.direct_uris",
            KeyName::NodeMaxBvlc => "node.max_bvlc",
            KeyName::NodeMaxNpdu => "node.max_npdu",
            KeyName::NodeConnectWaitMs => "node.connect_wait_ms",
            KeyName::NodeDisconnectWaitMs => "node.disconnect_wait_ms",
            KeyName::NodeHeartbeatMs => "node.heartbeat_ms",
            KeyName::NodeLeastReconnectMs => "node.least_reconnect_ms",
            KeyName::NodeGreatestReconnectMs => "node.greatest_reconnect_ms",
            KeyName::NodeTurns => "node.turns",
            KeyName::PolicyMember => "policy.member",
            KeyName::PolicyRule => "policy.rule",
            KeyName::HubProduct => "hub.product",
            KeyName::Unknown => "unknown",
        }
    }
}

impl Display for KeyName {
    fn fmt<W: Write>(&self, f: &mut Formatter<W>) -> fmt::Result {
        f.write_str(self.text())
    }
}

/// A key that takes an integer.
#[derive(Clone, Copy)]
pub(crate) struct NumberRow {
    pub(crate) key: KeyName,
    /// The word that a document has for the key.
    pub(crate) word: &'static str,
    pub(crate) least: u64,
    pub(crate) greatest: u64,
    /// The default, unless the key is required.
    pub(crate) default: Option<u64>,
}

/// A key that takes a text, and is required.
#[derive(Clone, Copy)]
pub(crate) struct TextRow {
    pub(crate) key: KeyName,
    /// The word that a document has for the key.
    pub(crate) word: &'static str,
}

/// The least of the longest messages.
const LEAST_MESSAGE: u64 = LEAST_BVLC as u64;

pub(crate) const VMAC: TextRow = TextRow {
    key: KeyName::HubVmac,
    word: "vmac",
};

pub(crate) const UUID: TextRow = TextRow {
    key: KeyName::HubUuid,
    word: "uuid",
};

pub(crate) const PORT: NumberRow = NumberRow {
    key: KeyName::HubPort,
    word: "port",
    least: 1,
    greatest: 65_535,
    default: None,
};

pub(crate) const MAX_BVLC: NumberRow = NumberRow {
    key: KeyName::HubMaxBvlc,
    word: "max_bvlc",
    least: LEAST_MESSAGE,
    greatest: 65_535,
    default: Some(16_384),
};

pub(crate) const MAX_NPDU: NumberRow = NumberRow {
    key: KeyName::HubMaxNpdu,
    word: "max_npdu",
    least: 1,
    greatest: 65_535,
    default: Some(1_497),
};

pub(crate) const ROWS: NumberRow = NumberRow {
    key: KeyName::HubRows,
    word: "rows",
    least: 1,
    greatest: MOST_ROWS,
    default: Some(256),
};

pub(crate) const OUTBOX: NumberRow = NumberRow {
    key: KeyName::HubOutbox,
    word: "outbox",
    least: 2,
    greatest: MOST_OUTBOX,
    default: Some(64),
};

pub(crate) const CONNECT_WAIT_MS: NumberRow = NumberRow {
    key: KeyName::HubConnectWaitMs,
    word: "connect_wait_ms",
    least: LEAST_MS,
    greatest: GREATEST_MS,
    default: Some(10_000),
};

pub(crate) const DISCONNECT_WAIT_MS: NumberRow = NumberRow {
    key: KeyName::HubDisconnectWaitMs,
    word: "disconnect_wait_ms",
    least: LEAST_MS,
    greatest: GREATEST_MS,
    default: Some(10_000),
};

pub(crate) const HEARTBEAT_MS: NumberRow = NumberRow {
    key: KeyName::HubHeartbeatMs,
    word: "heartbeat_ms",
    least: LEAST_MS,
    greatest: GREATEST_MS,
    default: Some(300_000),
};

pub(crate) const TURNS: NumberRow = NumberRow {
    key: KeyName::HubTurns,
    word: "turns",
    least: 1,
    greatest: MOST_TURNS,
    default: Some(MOST_TURNS),
};

pub(crate) const NODE_VMAC: TextRow = TextRow {
    key: KeyName::NodeVmac,
    word: "vmac",
};

pub(crate) const NODE_UUID: TextRow = TextRow {
    key: KeyName::NodeUuid,
    word: "uuid",
};

pub(crate) const PRIMARY: TextRow = TextRow {
    key: KeyName::NodePrimary,
    word: "primary",
};

pub(crate) const FAILOVER: TextRow = TextRow {
    key: KeyName::NodeFailover,
    word: "failover",
};

pub(crate) const DIRECT_PORT: NumberRow = NumberRow {
    key: KeyName::NodeDirectPort,
    word: "direct_port",
    ..PORT
};

pub(crate) const DIRECT_URIS: TextRow = TextRow {
    key: KeyName::NodeDirectUris,
    word: "direct_uris",
};

pub(crate) const NODE_MAX_BVLC: NumberRow = NumberRow {
    key: KeyName::NodeMaxBvlc,
    ..MAX_BVLC
};

pub(crate) const NODE_MAX_NPDU: NumberRow = NumberRow {
    key: KeyName::NodeMaxNpdu,
    ..MAX_NPDU
};

pub(crate) const NODE_CONNECT_WAIT_MS: NumberRow = NumberRow {
    key: KeyName::NodeConnectWaitMs,
    ..CONNECT_WAIT_MS
};

pub(crate) const NODE_DISCONNECT_WAIT_MS: NumberRow = NumberRow {
    key: KeyName::NodeDisconnectWaitMs,
    ..DISCONNECT_WAIT_MS
};

pub(crate) const NODE_HEARTBEAT_MS: NumberRow = NumberRow {
    key: KeyName::NodeHeartbeatMs,
    ..HEARTBEAT_MS
};

pub(crate) const LEAST_RECONNECT_MS: NumberRow = NumberRow {
    key: KeyName::NodeLeastReconnectMs,
    word: "least_reconnect_ms",
    default: Some(RECONNECT_MS),
    ..HEARTBEAT_MS
};

/// Its least value is that of the least wait.
pub(crate) const GREATEST_RECONNECT_MS: NumberRow = NumberRow {
    key: KeyName::NodeGreatestReconnectMs,
    word: "greatest_reconnect_ms",
    default: Some(30_000),
    ..HEARTBEAT_MS
};

pub(crate) const NODE_TURNS: NumberRow = NumberRow {
    key: KeyName::NodeTurns,
    ..TURNS
};
