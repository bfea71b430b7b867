//! Whether a document has nothing that settings don't have.
ghost use Rattle.std.specs.Prelude.{◌≡◌, ◌||◌, true, codes, option_map, string_bytes};
ghost use Rattle.std.specs.BTreeMap.{keys};
ghost use Rattle.std.specs.List.{list_all};
ghost use Rattle.toml.specs.Data.{get_member};
ghost use Rattle.toml.specs.View.{table_view};
ghost use Rattle.bsc_settings.specs.Table.{hub_table, node_table};
ghost use Rattle.bsc_settings.specs.Documents.{has_key, hub_of, node_of, policy_of, node_rows_of, is_known, is_known_policy, has_known_alone};
ghost use Rattle.bsc_text.specs.Lines.{same_octets};

use crate::hub_table::is_hub_key;
use crate::known_policy::has_policy_keys;
use crate::node_table::is_node_key;
use toml::Table;

/// What a document calls the table of a hub.
const HUB: &str = "hub";

/// What a document calls the table of a node.
const NODE: &str = "node";

/// What a document calls the table of the policy.
const POLICY: &str = "policy";

/// The table `hub` of a document, where it has it.
pub(crate) fn hub_of(doc: &Table) -> Option<&Table>
    ensures { option_map (λ t. table_view t.now) result ≡ hub_of (table_view doc.now) }
{
    match doc.get(HUB) {
        Some(value) => value.as_table(),
        None => None,
    }
}

/// The table `node` of a document, where it has it.
pub(crate) fn node_of(doc: &Table) -> Option<&Table>
    ensures { option_map (λ t. table_view t.now) result ≡ node_of (table_view doc.now) }
{
    match doc.get(NODE) {
        Some(value) => value.as_table(),
        None => None,
    }
}

/// The table `policy` of a document, where it has it.
pub(crate) fn policy_of(doc: &Table) -> Option<&Table>
    ensures { option_map (λ t. table_view t.now) result ≡ policy_of (table_view doc.now) }
{
    match doc.get(POLICY) {
        Some(value) => value.as_table(),
        None => None,
    }
}

/// Whether all keys of a table are keys of the table `hub`.
fn has_hub_keys(table: &Table) -> bool
    ensures { result ≡ list_all (λ key. has_key hub_table (string_bytes key)) (keys table.now) }
{
    table.keys().all(|key| is_hub_key(key.as_str()))
}

/// Whether all keys of a table are keys of the table `node`.
fn has_node_keys(table: &Table) -> bool
    ensures { result ≡ list_all (λ key. has_key (node_table true 0) (string_bytes key)) (keys table.now) }
{
    table.keys().all(|key| is_node_key(key.as_str()))
}

/// Whether a document has no keys but `hub`, `node` and `policy`.
fn has_tables_alone(doc: &Table) -> bool
    ensures { result ≡ list_all (λ key. same_octets (string_bytes key) (codes "hub")
        || same_octets (string_bytes key) (codes "node") || same_octets (string_bytes key) (codes "policy")) (keys doc.now) }
{
    doc.keys().all(|key| key.as_str() == HUB || key.as_str() == NODE || key.as_str() == POLICY)
}

/// Whether `hub`, where a document has it, is a table with nothing but keys of the table of keys.
fn is_hub_known(doc: &Table) -> bool
    ensures { result ≡ is_known (λ _. hub_table) (get_member (codes "hub") (table_view doc.now)) }
{
    let Some(value) = doc.get(HUB) else {
        return true;
    };
    match value.as_table() {
        Some(table) => has_hub_keys(table),
        None => false,
    }
}

/// The same of `node`.
fn is_node_known(doc: &Table) -> bool
    ensures { result ≡ is_known node_rows_of (get_member (codes "node") (table_view doc.now)) }
{
    let Some(value) = doc.get(NODE) else {
        return true;
    };
    match value.as_table() {
        Some(table) => has_node_keys(table),
        None => false,
    }
}

/// Whether `policy`, where a document has it, is a table with nothing but members and rules, and nothing but keys of theirs.
fn is_policy_known(doc: &Table) -> bool
    ensures { result ≡ is_known_policy (get_member (codes "policy") (table_view doc.now)) }
{
    let Some(value) = doc.get(POLICY) else {
        return true;
    };
    match value.as_table() {
        Some(table) => has_policy_keys(table),
        None => false,
    }
}

/// Whether a document has nothing but the tables `hub`, `node` and `policy`, and in each nothing but what belongs there.
pub(crate) fn has_known_alone(doc: &Table) -> bool
    ensures { result ≡ has_known_alone (table_view doc.now) }
{
    if !has_tables_alone(doc) {
        return false;
    }
    if !is_hub_known(doc) {
        return false;
    }
    if !is_node_known(doc) {
        return false;
    }
    is_policy_known(doc)
}
