//! What a document has that settings don't have (docs/SETTINGS.md, "What is refused").
use bsc_octets::NoMemory;
use bsc_settings::{is_hub_key, is_node_key};
use std::alloc::Global;
use toml::{Table, Value};

/// Whether a key of a table is one that settings have.
fn is_known(table: &str, key: &str) -> bool {
    if table == "node" {
        is_node_key(key)
    } else {
        is_hub_key(key)
    }
}

/// The first key of the table `hub` or `node`, or that it is no table.
fn unknown_key(alloc: Global, name: &str, value: &Value) -> Result<Option<String>, NoMemory> {
    let Some(table) = value.as_table() else {
        return Ok(Some(format!(in alloc; "`{name}` is no table")?));
    };
    for key in table.keys() {
        if !is_known(name, key.as_str()) {
            return Ok(Some(format!(in alloc; "`{name}.{key}` is no key of settings")?));
        }
    }
    Ok(None)
}

/// Whether a key is one of an entry of a list of a policy.
fn is_of_entry(list: &str, key: &str) -> bool {
    if list == "member" {
        return key == "device" || key == "vmac" || key == "group";
    }
    key == "do" || key == "from" || key == "to"
}

/// The first key of an entry of a list of a policy that entries don't have.
fn unknown_of_entry(
    alloc: Global,
    list: &str,
    number: u64,
    entry: &Value,
) -> Result<Option<String>, NoMemory> {
    let Some(table) = entry.as_table() else {
        return Ok(None);
    };
    for key in table.keys() {
        if !is_of_entry(list, key.as_str()) {
            return Ok(Some(format!(in alloc;
                "entry {number} of `policy.{list}` has the key `{key}`, which it can't have"
            )?));
        }
    }
    Ok(None)
}

/// The first key in a list of a policy that its entries don't have.
fn unknown_in_list(alloc: Global, policy: &Table, list: &str) -> Result<Option<String>, NoMemory> {
    let Some(value) = policy.get(list) else {
        return Ok(None);
    };
    let Some(entries) = value.as_array() else {
        return Ok(None);
    };
    let mut number: u64 = 0;
    for entry in entries {
        number = number.saturating_add(1);
        if let Some(text) = unknown_of_entry(alloc, list, number, entry)? {
            return Ok(Some(text));
        }
    }
    Ok(None)
}

/// What the table `policy` has that a policy doesn't have, or that it is no table.
fn unknown_in_policy(alloc: Global, value: &Value) -> Result<Option<String>, NoMemory> {
    let Some(policy) = value.as_table() else {
        return Ok(Some(format!(in alloc; "`policy` is no table")?));
    };
    for key in policy.keys() {
        if key.as_str() != "member" && key.as_str() != "rule" {
            return Ok(Some(format!(in alloc;
                "`policy.{key}` is no list of a policy: member and rule are"
            )?));
        }
    }
    if let Some(text) = unknown_in_list(alloc, policy, "member")? {
        return Ok(Some(text));
    }
    unknown_in_list(alloc, policy, "rule")
}

/// The first table of a document that settings don't have.
fn unknown_table(alloc: Global, doc: &Table) -> Result<Option<String>, NoMemory> {
    for key in doc.keys() {
        if key.as_str() != "hub" && key.as_str() != "node" && key.as_str() != "policy" {
            return Ok(Some(format!(in alloc;
                "`{key}` is no table of settings: hub, node and policy are"
            )?));
        }
    }
    Ok(None)
}

/// What a document has that settings don't have; the first in the order in which it is looked for.
pub(crate) fn unknown_in(alloc: Global, doc: &Table) -> Result<Option<String>, NoMemory> {
    if let Some(text) = unknown_table(alloc, doc)? {
        return Ok(Some(text));
    }
    if let Some(value) = doc.get("hub") {
        if let Some(text) = unknown_key(alloc, "hub", value)? {
            return Ok(Some(text));
        }
    }
    if let Some(value) = doc.get("node") {
        if let Some(text) = unknown_key(alloc, "node", value)? {
            return Ok(Some(text));
        }
    }
    match doc.get("policy") {
        Some(value) => unknown_in_policy(alloc, value),
        None => Ok(None),
    }
}
