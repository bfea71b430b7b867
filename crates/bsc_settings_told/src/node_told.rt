//! What is told of the settings of a node.
ghost use Rattle.std.specs.Prelude.{◌≡◌, ◌++◌, flat_map, IfOk, is_some};
ghost use Rattle.bsc_settings.specs.Fields.{node_fields_of};
ghost use Rattle.bsc_settings.specs.Table.{node_table};
ghost use Rattle.bsc_settings_told.specs.Lines.{lines_of};
ghost use Rattle.bsc_settings_told.specs.Told.{node_told};
ghost use Rattle.bsc_settings_told.specs.Written.{line_of};

use crate::line::{Line, Told};
use crate::lines::put_lines;
use bsc_lines::put_words;
use bsc_octets::NoMemory;
use bsc_settings::{MOST_TURNS, NodeSettings, RECONNECT_MS};
use std::alloc::Global;

/// The lines of the table `node`.
fn node_rows<'a>(node: &'a NodeSettings) -> [Line<'a>; 14]
    ensures { flat_map line_of result ≡ lines_of (node_table (is_some node.now.direct_port) node.now.least_reconnect_ms) (node_fields_of node.now) }
{
    [
        Line("vmac", None, Told::Address(node.vmac)),
        Line("uuid", None, Told::Device(node.uuid)),
        Line("primary", None, Told::Text(&node.primary)),
        Line("failover", None, Told::TextIf(&node.failover)),
        Line("direct_port", None, Told::NumberIf(node.direct_port)),
        Line(
            "direct_uris",
            None,
            Told::UrisOf(node.direct_port, &node.direct_uris),
        ),
        Line("max_bvlc", Some(16_384), Told::Number16(node.max_bvlc)),
        Line("max_npdu", Some(1_497), Told::Number16(node.max_npdu)),
        Line(
            "connect_wait_ms",
            Some(10_000),
            Told::Number32(node.connect_wait_ms),
        ),
        Line(
            "disconnect_wait_ms",
            Some(10_000),
            Told::Number32(node.disconnect_wait_ms),
        ),
        Line(
            "heartbeat_ms",
            Some(300_000),
            Told::Number32(node.heartbeat_ms),
        ),
        Line(
            "least_reconnect_ms",
            Some(RECONNECT_MS),
            Told::Number32(node.least_reconnect_ms),
        ),
        Line(
            "greatest_reconnect_ms",
            Some(30_000),
            Told::Number32(node.greatest_reconnect_ms),
        ),
        Line("turns", Some(MOST_TURNS), Told::Number64(node.turns)),
    ]
}

/// Puts the table `node`.
fn put_node(text: &mut Vec<u8>, alloc: Global, node: &NodeSettings) -> Result<(), NoMemory>
    ensures { IfOk result (λ _. text.new.items ≡ text.old.items ++ node_told node.now) }
{
    put_words(text, "[node]\n")?;
    let rows = node_rows(node);
    put_lines(text, alloc, &rows)
}

/// The document that tells the settings of a node: each with its value, and whether that is the default.
pub fn tell_node(alloc: Global, node: &NodeSettings) -> Result<Vec<u8>, NoMemory>
    ensures { IfOk result (λ t. t.items ≡ node_told node.now) }
{
    let mut text = Vec::new(alloc);
    put_node(&mut text, alloc, node)?;
    Ok(text)
}
