//! The values of the rows in a table of a document.
ghost use Rattle.std.specs.Prelude.{◌≡◌, ◌≤◌, Some, None, IfOk, IfErr, IfSome, is_some, option_map, option_and_then};
ghost use Rattle.toml.specs.Data.{as_str, as_integer, get_member};
ghost use Rattle.toml.specs.View.{table_view};
ghost use Rattle.bsc_settings.specs.Rows.{number_row, optional_number_row, text_row, optional_text_row, uris_row};
ghost use Rattle.bsc_settings.specs.Table.{address, device, hub_uri, uris, group, group_or_all, allow_or_deny, is_node_address, IsNodeAddress};
ghost use Rattle.bsc_settings.specs.Uris.{IsHubUri, AreUris};
ghost use Rattle.bsc_settings.specs.Values.{vmac, uuid, number, number_if, text, text_if, allows, natural, given, value_at};

use crate::groups::{allows_of, is_group, is_group_or_all};
use crate::key::{KeyName, NumberRow, TextRow};
use crate::uris::{are_uris, is_hub_uri};
use bsc_octets::{DeviceId, Vmac};
use bsc_text::{read_device, read_vmac};
use toml::Table;

/// The text at a key, where a text stands there.
fn text_at<'a>(table: &'a Table, word: &str) -> Option<&'a str>
    ensures { option_map (λ s. s.now) result ≡ option_and_then as_str (get_member word.now (table_view table.now)) }
{
    match table.get(word) {
        Some(value) => value.as_str(),
        None => None,
    }
}

/// Whether something stands at a key.
pub(crate) fn stands(table: &Table, word: &str) -> bool
    ensures { result ≡ is_some (get_member word.now (table_view table.now)) }
{
    match table.get(word) {
        Some(_) => true,
        None => false,
    }
}

/// An integer as a number, where it isn't negative.
fn natural(integer: Option<i64>) -> Option<u64>
    ensures { result ≡ natural integer }
{
    match integer {
        Some(n) => u64::try_from(n).ok(),
        None => None,
    }
}

/// What is given to a row: the number at its key, or its default where nothing stands there.
fn given(table: &Table, row: NumberRow) -> Option<u64>
    ensures { option_map number result ≡ given (number_row row) (get_member row.word.now (table_view table.now)) }
{
    match table.get(row.word) {
        Some(value) => natural(value.as_integer()),
        None => row.default,
    }
}

/// The number of a row, or the key that is at fault.
pub(crate) fn read_number(table: &Table, row: NumberRow) -> Result<u64, KeyName>
    ensures ok { IfOk result (λ n. value_at (number_row row) (table_view table.now) ≡ Some (number n)) }
    ensures within { IfOk result (λ n. (row.least ≤ n) × (n ≤ row.greatest)) }
    ensures err { IfErr result (λ key. (key ≡ row.key)
        × (value_at (number_row row) (table_view table.now) ≡ None)) }
{
    match given(table, row) {
        Some(n) if row.least <= n && n <= row.greatest => Ok(n),
        _ => Err(row.key),
    }
}

/// Whether an address names one node.
fn is_node_address(address: Vmac) -> bool
    ensures { result ≡ is_node_address address }
{
    address != Vmac::ZERO && address != Vmac::BROADCAST
}

/// The address of a row, or the key that is at fault.
pub(crate) fn read_address(table: &Table, row: TextRow) -> Result<Vmac, KeyName>
    ensures ok { IfOk result (λ v. value_at (text_row address row) (table_view table.now) ≡ Some (vmac v)) }
    ensures names { IfOk result IsNodeAddress }
    ensures err { IfErr result (λ key. (key ≡ row.key)
        × (value_at (text_row address row) (table_view table.now) ≡ None)) }
{
    let Some(text) = text_at(table, row.word) else {
        return Err(row.key);
    };
    match read_vmac(text.as_bytes()) {
        Some(address) if is_node_address(address) => Ok(address),
        _ => Err(row.key),
    }
}

/// The device of a row, or the key that is at fault.
pub(crate) fn read_uuid(table: &Table, row: TextRow) -> Result<DeviceId, KeyName>
    ensures ok { IfOk result (λ u. value_at (text_row device row) (table_view table.now) ≡ Some (uuid u)) }
    ensures err { IfErr result (λ key. (key ≡ row.key)
        × (value_at (text_row device row) (table_view table.now) ≡ None)) }
{
    let Some(text) = text_at(table, row.word) else {
        return Err(row.key);
    };
    match read_device(text.as_bytes()) {
        Some(device) => Ok(device),
        None => Err(row.key),
    }
}

/// The URI of a hub, or the key that is at fault.
pub(crate) fn read_hub_uri<'a>(table: &'a Table, row: TextRow) -> Result<&'a str, KeyName>
    ensures ok { IfOk result (λ t. value_at (text_row hub_uri row) (table_view table.now) ≡ Some (text t.now)) }
    ensures fits { IfOk result (λ t. IsHubUri t.now) }
    ensures err { IfErr result (λ key. (key ≡ row.key)
        × (value_at (text_row hub_uri row) (table_view table.now) ≡ None)) }
{
    match text_at(table, row.word) {
        Some(uri) if is_hub_uri(uri.as_bytes()) => Ok(uri),
        _ => Err(row.key),
    }
}

/// The URI of a hub, None where nothing stands at its key, or the key that is at fault.
pub(crate) fn read_optional_uri<'a>(
    table: &'a Table,
    row: TextRow,
) -> Result<Option<&'a str>, KeyName>
    ensures ok { IfOk result (λ t. value_at (optional_text_row hub_uri row) (table_view table.now)
        ≡ Some (text_if (option_map (λ s. s.now) t))) }
    ensures fits { IfOk result (λ t. IfSome t (λ s. IsHubUri s.now)) }
    ensures err { IfErr result (λ key. (key ≡ row.key)
        × (value_at (optional_text_row hub_uri row) (table_view table.now) ≡ None)) }
{
    if !stands(table, row.word) {
        return Ok(None);
    }
    Ok(Some(read_hub_uri(table, row)?))
}

/// A port, None where nothing stands at its key, or the key that is at fault.
pub(crate) fn read_optional_port(table: &Table, row: NumberRow) -> Result<Option<u16>, KeyName>
    requires { row.greatest ≤ 65535 }
    ensures ok { IfOk result (λ n. value_at (optional_number_row row) (table_view table.now) ≡ Some (number_if n)) }
    ensures stands { IfOk result (λ n. is_some n ≡ is_some (get_member row.word.now (table_view table.now))) }
    ensures within { IfOk result (λ n. IfSome n (λ p. (row.least ≤ p) × (p ≤ row.greatest))) }
    ensures err { IfErr result (λ key. (key ≡ row.key)
        × (value_at (optional_number_row row) (table_view table.now) ≡ None)) }
{
    if !stands(table, row.word) {
        return Ok(None);
    }
    Ok(Some(read_number(table, row)? as u16))
}

/// The URIs of a node that accepts direct connections, None of one that doesn't, or the key that is at fault.
pub(crate) fn read_uris<'a>(
    table: &'a Table,
    row: TextRow,
    accepts: bool,
) -> Result<Option<&'a str>, KeyName>
    ensures ok { IfOk result (λ t. value_at (uris_row accepts row) (table_view table.now)
        ≡ Some (text_if (option_map (λ s. s.now) t))) }
    ensures some { IfOk result (λ t. is_some t ≡ accepts) }
    ensures fits { IfOk result (λ t. IfSome t (λ s. AreUris s.now)) }
    ensures err { IfErr result (λ key. (key ≡ row.key)
        × (value_at (uris_row accepts row) (table_view table.now) ≡ None)) }
{
    if !accepts {
        return if stands(table, row.word) {
            Err(row.key)
        } else {
            Ok(None)
        };
    }
    match text_at(table, row.word) {
        Some(text) if are_uris(text.as_bytes()) => Ok(Some(text)),
        _ => Err(row.key),
    }
}

/// The name of a group, or the key that is at fault.
pub(crate) fn read_group<'a>(table: &'a Table, row: TextRow) -> Result<&'a str, KeyName>
    ensures ok { IfOk result (λ t. value_at (text_row group row) (table_view table.now) ≡ Some (text t.now)) }
    ensures err { IfErr result (λ key. (key ≡ row.key)
        × (value_at (text_row group row) (table_view table.now) ≡ None)) }
{
    match text_at(table, row.word) {
        Some(name) if is_group(name.as_bytes()) => Ok(name),
        _ => Err(row.key),
    }
}

/// The side of a rule, or the key that is at fault.
pub(crate) fn read_side<'a>(table: &'a Table, row: TextRow) -> Result<&'a str, KeyName>
    ensures ok { IfOk result (λ t. value_at (text_row group_or_all row) (table_view table.now) ≡ Some (text t.now)) }
    ensures err { IfErr result (λ key. (key ≡ row.key)
        × (value_at (text_row group_or_all row) (table_view table.now) ≡ None)) }
{
    match text_at(table, row.word) {
        Some(side) if is_group_or_all(side.as_bytes()) => Ok(side),
        _ => Err(row.key),
    }
}

/// Whether a rule allows, or the key that is at fault.
pub(crate) fn read_allows(table: &Table, row: TextRow) -> Result<bool, KeyName>
    ensures ok { IfOk result (λ b. value_at (text_row allow_or_deny row) (table_view table.now) ≡ Some (allows b)) }
    ensures err { IfErr result (λ key. (key ≡ row.key)
        × (value_at (text_row allow_or_deny row) (table_view table.now) ≡ None)) }
{
    let Some(text) = text_at(table, row.word) else {
        return Err(row.key);
    };
    match allows_of(text.as_bytes()) {
        Some(allows) => Ok(allows),
        None => Err(row.key),
    }
}
