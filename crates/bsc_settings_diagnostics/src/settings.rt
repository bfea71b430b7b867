//! Why settings are refused (docs/SETTINGS.md, "What is refused").
ghost use Rattle.std.specs.Prelude.{◌≡◌, ◌≢◌, None, IfOk, IfSome};
ghost use Rattle.toml.specs.Data.{Members};
ghost use Rattle.bsc_settings.specs.Documents.{IsDocument};
ghost use Rattle.bsc_settings.specs.Faults.{fault_of};

use crate::key_range::{range_of, text_of};
use crate::unknown::unknown_in;
use bsc_diagnostics::Shown;
use bsc_octets::NoMemory;
use bsc_settings::{KeyName, RECONNECT_MS, SettingFault, read_settings, refusal_of};
use std::alloc::Global;
use toml::{Table, Value};

/// The line and the column of a place in a text, both from 1. A column counts characters.
fn place_of(text: &[u8], at: usize) -> (u64, u64) {
    let mut line: u64 = 1;
    let mut column: u64 = 1;
    for octet in text.get(..at).unwrap_or(text) {
        if *octet == b'\n' {
            line = line.saturating_add(1);
            column = 1;
        } else if *octet < 0x80 || 0xC0 <= *octet {
            column = column.saturating_add(1);
        }
    }
    (line, column)
}

/// Why a text is no TOML, with the line and the column.
fn why_not_toml(alloc: Global, text: &[u8]) -> Result<String, NoMemory> {
    match toml::table_from_slice(alloc, text) {
        Ok(_) => Ok(format!(in alloc; "it is no TOML")?),
        Err(error) => match error.span() {
            None => Err(NoMemory),
            Some(span) => {
                let (line, column) = place_of(text, span.start);
                let message = error.message();
                Ok(format!(in alloc; "line {line}, column {column}: {message}")?)
            }
        },
    }
}

/// A value, as it is shown.
fn value_text(alloc: Global, value: &Value) -> Result<String, NoMemory> {
    match value {
        Value::Integer(n) => Ok(format!(in alloc; "{n}")?),
        Value::Boolean(is_true) => Ok(format!(in alloc; "{is_true}")?),
        Value::String(text) => {
            let shown = Shown(text.as_bytes());
            Ok(format!(in alloc; "{shown}")?)
        }
        Value::Float(_) => Ok(format!(in alloc; "no integer, but a float")?),
        Value::Datetime(_) => Ok(format!(in alloc; "a date or a time")?),
        Value::Array(_) => Ok(format!(in alloc; "a list")?),
        Value::Table(_) => Ok(format!(in alloc; "a table")?),
    }
}

/// The value of a key of a table of a document.
fn value_of<'a>(doc: &'a Table, table: &str, key: &str) -> Option<&'a Value> {
    doc.get(table)?.as_table()?.get(key)
}

/// The least wait of a node, which is no fault.
fn least_wait(doc: &Table) -> u64 {
    match value_of(doc, "node", "least_reconnect_ms") {
        Some(value) => match value.as_integer() {
            Some(n) => u64::try_from(n).unwrap_or(RECONNECT_MS),
            None => RECONNECT_MS,
        },
        None => RECONNECT_MS,
    }
}

/// What a key takes.
fn kind_text(
    alloc: Global,
    doc: &Table,
    name: KeyName,
    table: &str,
    key: &str,
) -> Result<String, NoMemory> {
    match range_of(least_wait(doc), table == "node", key) {
        Some((least, greatest)) => Ok(format!(in alloc; "an integer from {least} to {greatest}")?),
        None => Ok(String::from_str(alloc, text_of(name))?),
    }
}

/// Why a key is at fault by what stands, or doesn't stand, at another, where it is for that.
fn why_beside(doc: &Table, name: KeyName) -> Option<&'static str> {
    match name {
        KeyName::NodeDirectUris => {
            let has_port = value_of(doc, "node", "direct_port").is_some();
            let has_uris = value_of(doc, "node", "direct_uris").is_some();
            if has_uris && !has_port {
                return Some("it is there, and `node.direct_port` isn't");
            }
            None
        }
        KeyName::NodeGreatestReconnectMs => {
            if value_of(doc, "node", "greatest_reconnect_ms").is_none() {
                return Some(
                    "it isn't there, and its default is less than `node.least_reconnect_ms`",
                );
            }
            None
        }
        KeyName::HubProduct => {
            Some(
                "`hub.rows` times `hub.outbox` times `hub.max_bvlc` is above 1073741824, which is 2^30",
            )
        }
        _ => None,
    }
}

/// What is wrong with a key of `hub` or `node`.
fn why_key(alloc: Global, doc: &Table, name: KeyName) -> Result<String, NoMemory> {
    let text = name.text();
    if let Some(why) = why_beside(doc, name) {
        return Ok(format!(in alloc; "`{text}`: {why}")?);
    }
    let (table, key) = match text.split_once('.') {
        Some(parts) => parts,
        None => (text, ""),
    };
    let kind = kind_text(alloc, doc, name, table, key)?;
    match value_of(doc, table, key) {
        Some(value) => {
            let value = value_text(alloc, value)?;
            Ok(format!(in alloc; "`{text}` is {value}, and has to be {kind}")?)
        }
        None => Ok(format!(in alloc; "`{text}` isn't there, and has to be {kind}")?),
    }
}

/// What is wrong with the policy.
fn why_policy(alloc: Global, text: &[u8]) -> Result<String, NoMemory> {
    match refusal_of(alloc, text) {
        Some(refusal) => Ok(format!(in alloc; "{refusal}")?),
        None => Err(NoMemory),
    }
}

/// What is wrong with a document where this key is named.
fn why_named(alloc: Global, text: &[u8], name: KeyName) -> Result<String, NoMemory> {
    let Ok(doc) = toml::table_from_slice(alloc, text) else {
        return Err(NoMemory);
    };
    match name {
        KeyName::PolicyMember | KeyName::PolicyRule => why_policy(alloc, text),
        KeyName::Unknown => match unknown_in(alloc, &doc)? {
            Some(why) => Ok(why),
            None => Ok(format!(in alloc; "they have a key that is unknown")?),
        },
        _ => why_key(alloc, &doc, name),
    }
}

/// What is wrong with settings that are refused: where they aren't TOML, with line and column; of a key that is named its value,
/// and what it takes; which key or table is unknown. None of settings that aren't refused.
pub fn why_settings(alloc: Global, text: &[u8]) -> Result<Option<String>, NoMemory>
    // It is said only of settings that are refused.
    ensures { IfOk result (λ why. IfSome why (λ it. (doc : Members) → IsDocument text.now doc → fault_of doc ≢ None)) }
{
    match read_settings(alloc, text) {
        Ok(_) => Ok(None),
        Err(SettingFault::NoMemory) => Err(NoMemory),
        Err(SettingFault::NotToml) => Ok(Some(why_not_toml(alloc, text)?)),
        Err(SettingFault::Key { name }) => Ok(Some(why_named(alloc, text, name)?)),
    }
}
