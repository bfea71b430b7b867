//! The settings of a hub, read from the table `hub` of a document, and the keys of that table.
ghost use Rattle.std.specs.Prelude.{◌≡◌, ◌||◌, Some, None, IfOk, IfErr};
ghost use Rattle.toml.specs.View.{table_view};
ghost use Rattle.bsc_settings.specs.Table.{hub_table};
ghost use Rattle.bsc_settings.specs.Documents.{has_key, range_in};
ghost use Rattle.bsc_settings.specs.Faults.{first_at_fault};
ghost use Rattle.bsc_settings.specs.Steps.{TableSays};

use crate::hub::HubSettings;
use crate::hub_said::HubSaid;
use crate::key::{
    CONNECT_WAIT_MS, DISCONNECT_WAIT_MS, HEARTBEAT_MS, KeyName, MAX_BVLC, MAX_NPDU, OUTBOX, PORT,
    ROWS, TURNS, UUID, VMAC,
};
use crate::values::{read_address, read_number, read_uuid};
use bsc_history::MOST_OCTETS;
use toml::Table;

/// What a table says of a hub, or the first key of it at fault.
pub(crate) fn read_hub(table: &Table) -> Result<HubSaid, KeyName>
    ensures says { IfOk result (TableSays (Some (table_view table.now))) }
    ensures fine { IfOk result (λ _. first_at_fault hub_table (table_view table.now) ≡ None) }
    ensures fault { IfErr result (λ key. first_at_fault hub_table (table_view table.now) ≡ Some key) }
{
    let vmac = read_address(table, VMAC)?;
    let uuid = read_uuid(table, UUID)?;
    let port = read_number(table, PORT)?;
    let max_bvlc = read_number(table, MAX_BVLC)?;
    let max_npdu = read_number(table, MAX_NPDU)?;
    let rows = read_number(table, ROWS)?;
    let outbox = read_number(table, OUTBOX)?;
    let connect_wait_ms = read_number(table, CONNECT_WAIT_MS)?;
    let disconnect_wait_ms = read_number(table, DISCONNECT_WAIT_MS)?;
    let heartbeat_ms = read_number(table, HEARTBEAT_MS)?;
    let turns = read_number(table, TURNS)?;
    if rows * outbox * max_bvlc > MOST_OCTETS {
        return Ok(HubSaid::LargeProduct);
    }
    Ok(HubSaid::Settings(Some(HubSettings {
        vmac,
        uuid,
        port: port as u16,
        max_bvlc: max_bvlc as u16,
        max_npdu: max_npdu as u16,
        rows: rows as u32,
        outbox: outbox as u32,
        connect_wait_ms: connect_wait_ms as u32,
        disconnect_wait_ms: disconnect_wait_ms as u32,
        heartbeat_ms: heartbeat_ms as u32,
        turns,
    })))
}

/// Whether a word is a key of the table `hub`.
pub fn is_hub_key(word: &str) -> bool
    ensures { result ≡ has_key hub_table word.now }
{
    word == VMAC.word
        || word == UUID.word
        || word == PORT.word
        || word == MAX_BVLC.word
        || word == MAX_NPDU.word
        || word == ROWS.word
        || word == OUTBOX.word
        || word == CONNECT_WAIT_MS.word
        || word == DISCONNECT_WAIT_MS.word
        || word == HEARTBEAT_MS.word
        || word == TURNS.word
}

/// The least and the greatest number that a key of the table `hub` takes, where it takes a number.
pub fn hub_range(word: &str) -> Option<(u64, u64)>
    ensures { result ≡ range_in hub_table word.now }
{
    if word == VMAC.word || word == UUID.word {
        return None;
    }
    if word == PORT.word {
        return Some((PORT.least, PORT.greatest));
    }
    if word == MAX_BVLC.word {
        return Some((MAX_BVLC.least, MAX_BVLC.greatest));
    }
    if word == MAX_NPDU.word {
        return Some((MAX_NPDU.least, MAX_NPDU.greatest));
    }
    if word == ROWS.word {
        return Some((ROWS.least, ROWS.greatest));
    }
    if word == OUTBOX.word {
        return Some((OUTBOX.least, OUTBOX.greatest));
    }
    if word == CONNECT_WAIT_MS.word {
        return Some((CONNECT_WAIT_MS.least, CONNECT_WAIT_MS.greatest));
    }
    if word == DISCONNECT_WAIT_MS.word {
        return Some((DISCONNECT_WAIT_MS.least, DISCONNECT_WAIT_MS.greatest));
    }
    if word == HEARTBEAT_MS.word {
        return Some((HEARTBEAT_MS.least, HEARTBEAT_MS.greatest));
    }
    if word == TURNS.word {
        return Some((TURNS.least, TURNS.greatest));
    }
    None
}
