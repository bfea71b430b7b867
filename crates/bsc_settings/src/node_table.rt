//! The settings of a node, read from the table `node` of a document, and the keys of that table.
ghost use Rattle.std.specs.Prelude.{◌≡◌, ◌++◌, ◌||◌, true, None, Some, IfOk, IfErr, IfSome, codes, is_some, option_map};
ghost use Rattle.std.specs.Str.{IsUtf8};
ghost use Rattle.toml.specs.Data.{get_member};
ghost use Rattle.toml.specs.View.{table_view};
ghost use Rattle.bsc_settings.specs.Table.{greatest_reconnect_row, least_reconnect_row, node_table, RowTakes};
ghost use Rattle.bsc_settings.specs.Rows.{number_row};
ghost use Rattle.bsc_settings.specs.Values.{value_at};
ghost use Rattle.bsc_settings.specs.Documents.{amount, has_key, node_rows_of, range_in};
ghost use Rattle.bsc_settings.specs.Faults.{first_at_fault, NamesFirst};
ghost use Rattle.bsc_settings.specs.Fields.{node_fields_of, values_of};
ghost use Rattle.bsc_settings.specs.Fields.{peer_rows, size_rows, bound_rows, peer_fields, size_fields, bound_fields};

use crate::fault::SettingFault;
use crate::key::{
    DIRECT_PORT, DIRECT_URIS, FAILOVER, GREATEST_RECONNECT_MS, KeyName, LEAST_RECONNECT_MS,
    NODE_CONNECT_WAIT_MS, NODE_DISCONNECT_WAIT_MS, NODE_HEARTBEAT_MS, NODE_MAX_BVLC, NODE_MAX_NPDU,
    NODE_TURNS, NODE_UUID, NODE_VMAC, NumberRow, PRIMARY,
};
use crate::node::{NodeBounds, NodePeers, NodeSettings, NodeSizes};
use crate::values::{
    read_address, read_hub_uri, read_number, read_optional_port, read_optional_uri, read_uris,
    read_uuid, stands,
};
use bsc_octets::{NoMemory, Octets};
use std::alloc::Global;
use toml::Table;

/// A text in memory of its own.
fn octets_of(alloc: Global, text: &str) -> Result<Octets, NoMemory>
    ensures value { IfOk result (λ o. o ≡ text.now) }
    ensures utf8 { IfOk result IsUtf8 }
{
    Ok(Octets::from_vec(Vec::from_slice(alloc, text.as_bytes())?))
}

/// The same of a text that may be missing.
fn octets_if(alloc: Global, text: Option<&str>) -> Result<Option<Octets>, NoMemory>
    ensures value { IfOk result (λ o. o ≡ option_map (λ t. t.now) text.entry) }
    ensures utf8 { IfOk result (λ o. IfSome o IsUtf8) }
{
    match text {
        Some(text) => Ok(Some(octets_of(alloc, text)?)),
        None => Ok(None),
    }
}

/// The row of the greatest wait, by the least one.
fn greatest_reconnect(least: u64) -> NumberRow
    ensures { number_row result ≡ greatest_reconnect_row least }
{
    NumberRow {
        least,
        ..GREATEST_RECONNECT_MS
    }
}

/// The first part of the settings of a node, or the first key of it at fault. Whether the node accepts direct connections is
/// handed in.
fn read_peers<'a>(table: &'a Table, accepts: bool) -> Result<NodePeers<'a>, KeyName>
    requires { accepts ≡ is_some (get_member (codes "direct_port") (table_view table.now)) }
    ensures fields { IfOk result (λ p. peer_fields p ≡ values_of (peer_rows accepts) (table_view table.now)) }
    ensures fine { IfOk result (λ _. first_at_fault (peer_rows accepts) (table_view table.now) ≡ None) }
    ensures fault { IfErr result (λ key. first_at_fault (peer_rows accepts) (table_view table.now) ≡ Some key) }
{
    let vmac = read_address(table, NODE_VMAC)?;
    let uuid = read_uuid(table, NODE_UUID)?;
    let primary = read_hub_uri(table, PRIMARY)?;
    let failover = read_optional_uri(table, FAILOVER)?;
    let direct_port = read_optional_port(table, DIRECT_PORT)?;
    let direct_uris = read_uris(table, DIRECT_URIS, accepts)?;
    Ok(NodePeers {
        vmac,
        uuid,
        primary,
        failover,
        direct_port,
        direct_uris,
    })
}

/// The second part.
fn read_sizes(table: &Table) -> Result<NodeSizes, KeyName>
    ensures fields { IfOk result (λ s. size_fields s ≡ values_of size_rows (table_view table.now)) }
    ensures fine { IfOk result (λ _. first_at_fault size_rows (table_view table.now) ≡ None) }
    ensures fault { IfErr result (λ key. first_at_fault size_rows (table_view table.now) ≡ Some key) }
    ensures least { IfOk result (λ s. amount (value_at least_reconnect_row (table_view table.now)) ≡ s.least_reconnect_ms) }
{
    let max_bvlc = read_number(table, NODE_MAX_BVLC)?;
    let max_npdu = read_number(table, NODE_MAX_NPDU)?;
    let connect_wait_ms = read_number(table, NODE_CONNECT_WAIT_MS)?;
    let disconnect_wait_ms = read_number(table, NODE_DISCONNECT_WAIT_MS)?;
    let heartbeat_ms = read_number(table, NODE_HEARTBEAT_MS)?;
    let least_reconnect_ms = read_number(table, LEAST_RECONNECT_MS)?;
    Ok(NodeSizes {
        max_bvlc: max_bvlc as u16,
        max_npdu: max_npdu as u16,
        connect_wait_ms: connect_wait_ms as u32,
        disconnect_wait_ms: disconnect_wait_ms as u32,
        heartbeat_ms: heartbeat_ms as u32,
        least_reconnect_ms: least_reconnect_ms as u32,
    })
}

/// The third part, by the least wait.
fn read_bounds(table: &Table, least: u32) -> Result<NodeBounds, KeyName>
    ensures fields { IfOk result (λ b. bound_fields b ≡ values_of (bound_rows least) (table_view table.now)) }
    ensures fine { IfOk result (λ _. first_at_fault (bound_rows least) (table_view table.now) ≡ None) }
    ensures fault { IfErr result (λ key. first_at_fault (bound_rows least) (table_view table.now) ≡ Some key) }
    ensures fits { IfOk result (λ b. RowTakes (greatest_reconnect_row least) b.greatest_reconnect_ms) }
{
    let greatest_reconnect_ms = read_number(table, greatest_reconnect(u64::from(least)))?;
    let turns = read_number(table, NODE_TURNS)?;
    Ok(NodeBounds {
        greatest_reconnect_ms: greatest_reconnect_ms as u32,
        turns,
    })
}

/// The settings of these parts, with texts in memory of their own.
fn join_parts(
    alloc: Global,
    peers: &NodePeers<'_>,
    sizes: &NodeSizes,
    bounds: &NodeBounds,
) -> Result<NodeSettings, NoMemory>
    requires { RowTakes (greatest_reconnect_row sizes.now.least_reconnect_ms) bounds.now.greatest_reconnect_ms }
    ensures { IfOk result (λ n. node_fields_of n ≡ peer_fields peers.now ++ size_fields sizes.now ++ bound_fields bounds.now) }
{
    let primary = octets_of(alloc, peers.primary)?;
    let failover = octets_if(alloc, peers.failover)?;
    let direct_uris = octets_if(alloc, peers.direct_uris)?;
    Ok(NodeSettings {
        vmac: peers.vmac,
        uuid: peers.uuid,
        primary,
        failover,
        direct_port: peers.direct_port,
        direct_uris,
        max_bvlc: sizes.max_bvlc,
        max_npdu: sizes.max_npdu,
        connect_wait_ms: sizes.connect_wait_ms,
        disconnect_wait_ms: sizes.disconnect_wait_ms,
        heartbeat_ms: sizes.heartbeat_ms,
        least_reconnect_ms: sizes.least_reconnect_ms,
        greatest_reconnect_ms: bounds.greatest_reconnect_ms,
        turns: bounds.turns,
    })
}

/// The settings of a node, or the first key at fault.
pub(crate) fn read_node(alloc: Global, table: &Table) -> Result<NodeSettings, SettingFault>
    ensures fields { IfOk result (λ n. node_fields_of n ≡ values_of (node_rows_of (table_view table.now)) (table_view table.now)) }
    ensures fine { IfOk result (λ _. first_at_fault (node_rows_of (table_view table.now)) (table_view table.now) ≡ None) }
    ensures fault { IfErr result (λ fault. NamesFirst fault (first_at_fault (node_rows_of (table_view table.now)) (table_view table.now))) }
{
    let peers = match read_peers(table, stands(table, DIRECT_PORT.word)) {
        Ok(peers) => peers,
        Err(name) => return Err(SettingFault::from(name)),
    };
    let sizes = read_sizes(table)?;
    let bounds = read_bounds(table, sizes.least_reconnect_ms)?;
    let settings = join_parts(alloc, &peers, &sizes, &bounds)?;
    Ok(settings)
}

/// Whether a word is a key of the table `node`; its words are the same for every node.
pub fn is_node_key(word: &str) -> bool
    ensures { result ≡ has_key (node_table true 0) word.now }
{
    word == NODE_VMAC.word
        || word == NODE_UUID.word
        || word == PRIMARY.word
        || word == FAILOVER.word
        || word == DIRECT_PORT.word
        || word == DIRECT_URIS.word
        || word == NODE_MAX_BVLC.word
        || word == NODE_MAX_NPDU.word
        || word == NODE_CONNECT_WAIT_MS.word
        || word == NODE_DISCONNECT_WAIT_MS.word
        || word == NODE_HEARTBEAT_MS.word
        || word == LEAST_RECONNECT_MS.word
        || word == GREATEST_RECONNECT_MS.word
        || word == NODE_TURNS.word
}

/// The least and the greatest number that a key of the table `node` takes, where it takes a number, by the least wait.
pub fn node_range(word: &str, least: u64) -> Option<(u64, u64)>
    ensures { result ≡ range_in (node_table true least) word.now }
{
    if word == NODE_VMAC.word || word == NODE_UUID.word {
        return None;
    }
    if word == PRIMARY.word || word == FAILOVER.word {
        return None;
    }
    if word == DIRECT_PORT.word {
        return Some((DIRECT_PORT.least, DIRECT_PORT.greatest));
    }
    if word == DIRECT_URIS.word {
        return None;
    }
    if word == NODE_MAX_BVLC.word {
        return Some((NODE_MAX_BVLC.least, NODE_MAX_BVLC.greatest));
    }
    if word == NODE_MAX_NPDU.word {
        return Some((NODE_MAX_NPDU.least, NODE_MAX_NPDU.greatest));
    }
    if word == NODE_CONNECT_WAIT_MS.word {
        return Some((NODE_CONNECT_WAIT_MS.least, NODE_CONNECT_WAIT_MS.greatest));
    }
    if word == NODE_DISCONNECT_WAIT_MS.word {
        return Some((
            NODE_DISCONNECT_WAIT_MS.least,
            NODE_DISCONNECT_WAIT_MS.greatest,
        ));
    }
    if word == NODE_HEARTBEAT_MS.word {
        return Some((NODE_HEARTBEAT_MS.least, NODE_HEARTBEAT_MS.greatest));
    }
    if word == LEAST_RECONNECT_MS.word {
        return Some((LEAST_RECONNECT_MS.least, LEAST_RECONNECT_MS.greatest));
    }
    if word == GREATEST_RECONNECT_MS.word {
        return Some((least, GREATEST_RECONNECT_MS.greatest));
    }
    if word == NODE_TURNS.word {
        return Some((NODE_TURNS.least, NODE_TURNS.greatest));
    }
    None
}
