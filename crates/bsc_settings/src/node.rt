//! What is settled before a node starts.
ghost use Rattle.std.specs.Prelude.{◌≡◌, ◌≤◌, IfSome, is_some};
ghost use Rattle.std.specs.Str.{IsUtf8};
ghost use Rattle.std.proofs.Props.{props};
ghost use Rattle.bsc_settings.specs.Table.{node_max_bvlc_row, node_max_npdu_row, node_connect_wait_row, node_disconnect_wait_row};
ghost use Rattle.bsc_settings.specs.Table.{node_heartbeat_row, least_reconnect_row, greatest_reconnect_row, node_turns_row, RowTakes};
ghost use Rattle.bsc_settings.specs.Table.{IsNodeAddress};
ghost use Rattle.bsc_settings.specs.Uris.{IsHubUri, AreUris};

use bsc_octets::{DeviceId, Octets, Vmac};

/// The settings of a node. Each value is one that its key takes.
#[derive(Debug, Drop)]
pub struct NodeSettings {
    /// The node's VMAC when it starts, neither zero nor the broadcast address.
    pub vmac: Vmac,
    /// The node's own Device UUID.
    pub uuid: DeviceId,
    /// The URI of the primary hub, which begins with `ws://`.
    pub primary: Octets,
    /// The URI of the failover hub, which begins with `ws://`; None where there is no failover.
    pub failover: Option<Octets>,
    /// The TCP port that it binds for direct connections: 1 to 65,535; None where it accepts none.
    pub direct_port: Option<u16>,
    /// The URIs at which it accepts direct connections, with one space between two; None where it accepts none.
    pub direct_uris: Option<Octets>,
    /// Its Maximum BVLC Length, in octets: `LEAST_BVLC` of `bsc_octets` to 65,535.
    pub max_bvlc: u16,
    /// Its Maximum NPDU Length, in octets: 1 to 65,535.
    pub max_npdu: u16,
    /// How long an accept or a Connect-Request is waited for, in milliseconds: `LEAST_MS` to `GREATEST_MS`.
    pub connect_wait_ms: u32,
    /// How long the answer to a Disconnect-Request is waited for, in milliseconds: `LEAST_MS` to `GREATEST_MS`.
    pub disconnect_wait_ms: u32,
    /// The time of a heartbeat, in milliseconds: `LEAST_MS` to `GREATEST_MS`.
    pub heartbeat_ms: u32,
    /// How long a hub isn't dialled after one failure, in milliseconds: `LEAST_MS` to `GREATEST_MS`.
    pub least_reconnect_ms: u32,
    /// How long it isn't dialled after many failures in a row, in milliseconds: the least wait to `GREATEST_MS`.
    pub greatest_reconnect_ms: u32,
    /// How many turns the node makes at most: 1 to `MOST_TURNS`.
    pub turns: u64,
    // The node has an address that names one node.
    pub ghost address: { IsNodeAddress vmac },
    // The URIs of hubs are ones that can be dialled.
    pub ghost primary_fits: { IsHubUri primary },
    pub ghost failover_fits: { IfSome failover IsHubUri } by { Prim.hlevel props },
    // It tells URIs exactly where it accepts direct connections.
    pub ghost uris_fit: { IfSome direct_uris AreUris } by { Prim.hlevel props },
    pub ghost uris_are_utf8: { IfSome direct_uris IsUtf8 } by { Prim.hlevel props },
    pub ghost uris_of_port: { is_some direct_uris ≡ is_some direct_port },
    // Each number is one that its row of the table takes.
    pub ghost direct_port_fits: { IfSome direct_port (λ p. (1 ≤ p) × (p ≤ 65535)) } by { Prim.hlevel props },
    pub ghost max_bvlc_fits: { RowTakes node_max_bvlc_row max_bvlc },
    pub ghost max_npdu_fits: { RowTakes node_max_npdu_row max_npdu },
    pub ghost connect_wait_fits: { RowTakes node_connect_wait_row connect_wait_ms },
    pub ghost disconnect_wait_fits: { RowTakes node_disconnect_wait_row disconnect_wait_ms },
    pub ghost heartbeat_fits: { RowTakes node_heartbeat_row heartbeat_ms },
    pub ghost least_reconnect_fits: { RowTakes least_reconnect_row least_reconnect_ms },
    pub ghost greatest_reconnect_fits: { RowTakes (greatest_reconnect_row least_reconnect_ms) greatest_reconnect_ms },
    pub ghost turns_fit: { RowTakes node_turns_row turns },
}

/// The first part of the settings of a node, as they are read: who it is, which hubs it dials, and where it is dialled. Texts are
/// where the document has them.
#[derive(Clone, Copy)]
pub(crate) struct NodePeers<'a> {
    pub(crate) vmac: Vmac,
    pub(crate) uuid: DeviceId,
    pub(crate) primary: &'a str,
    pub(crate) failover: Option<&'a str>,
    pub(crate) direct_port: Option<u16>,
    pub(crate) direct_uris: Option<&'a str>,
    ghost address: { IsNodeAddress vmac },
    ghost primary_fits: { IsHubUri primary.now },
    ghost failover_fits: { IfSome failover (λ s. IsHubUri s.now) } by { Prim.hlevel props },
    ghost uris_fit: { IfSome direct_uris (λ s. AreUris s.now) } by { Prim.hlevel props },
    ghost uris_of_port: { is_some direct_uris ≡ is_some direct_port },
    ghost direct_port_fits: { IfSome direct_port (λ p. (1 ≤ p) × (p ≤ 65535)) } by { Prim.hlevel props },
}

/// The second part: how long its messages may be, and how long it waits.
#[derive(Clone, Copy)]
pub(crate) struct NodeSizes {
    pub(crate) max_bvlc: u16,
    pub(crate) max_npdu: u16,
    pub(crate) connect_wait_ms: u32,
    pub(crate) disconnect_wait_ms: u32,
    pub(crate) heartbeat_ms: u32,
    pub(crate) least_reconnect_ms: u32,
    ghost max_bvlc_fits: { RowTakes node_max_bvlc_row max_bvlc },
    ghost max_npdu_fits: { RowTakes node_max_npdu_row max_npdu },
    ghost connect_wait_fits: { RowTakes node_connect_wait_row connect_wait_ms },
    ghost disconnect_wait_fits: { RowTakes node_disconnect_wait_row disconnect_wait_ms },
    ghost heartbeat_fits: { RowTakes node_heartbeat_row heartbeat_ms },
    ghost least_reconnect_fits: { RowTakes least_reconnect_row least_reconnect_ms },
}

/// The third part: how long it waits at most before it dials a hub again, and how many turns it makes.
#[derive(Clone, Copy)]
pub(crate) struct NodeBounds {
    pub(crate) greatest_reconnect_ms: u32,
    pub(crate) turns: u64,
    ghost turns_fit: { RowTakes node_turns_row turns },
}
