//! Whether a table `policy` has nothing that settings don't have.
ghost use Rattle.std.specs.Prelude.{◌≡◌, ◌||◌, Some, codes, string_bytes};
ghost use Rattle.std.specs.BTreeMap.{keys};
ghost use Rattle.std.specs.List.{list_all};
ghost use Rattle.toml.specs.Data.{get_member, table as toml_table};
ghost use Rattle.toml.specs.View.{table_view, view};
ghost use Rattle.bsc_settings.specs.Table.{member_table, rule_table};
ghost use Rattle.bsc_settings.specs.Documents.{has_key, is_known, is_known_list, is_known_policy};
ghost use Rattle.bsc_text.specs.Lines.{same_octets};

use crate::policy_rows::{MEMBER_DEVICE, MEMBER_GROUP, MEMBER_VMAC, RULE_DO, RULE_FROM, RULE_TO};
use crate::policy_table::{MEMBERS, RULES};
use toml::{Table, Value};

/// Whether a word is a key of a member.
fn is_member_key(word: &str) -> bool
    ensures { result ≡ has_key member_table word.now }
{
    word == MEMBER_DEVICE.word || word == MEMBER_VMAC.word || word == MEMBER_GROUP.word
}

/// Whether a word is a key of a rule.
fn is_rule_key(word: &str) -> bool
    ensures { result ≡ has_key rule_table word.now }
{
    word == RULE_DO.word || word == RULE_FROM.word || word == RULE_TO.word
}

/// Whether all keys of a table are keys of a member.
fn has_member_keys(table: &Table) -> bool
    ensures { result ≡ list_all (λ key. has_key member_table (string_bytes key)) (keys table.now) }
{
    table.keys().all(|key| is_member_key(key.as_str()))
}

/// Whether all keys of a table are keys of a rule.
fn has_rule_keys(table: &Table) -> bool
    ensures { result ≡ list_all (λ key. has_key rule_table (string_bytes key)) (keys table.now) }
{
    table.keys().all(|key| is_rule_key(key.as_str()))
}

/// Whether a value is a table with nothing but keys of a member.
fn is_known_member(value: &Value) -> bool
    ensures { result ≡ is_known (λ _. member_table) (Some (view value.now)) }
{
    match value.as_table() {
        Some(table) => has_member_keys(table),
        None => false,
    }
}

/// Whether a value is a table with nothing but keys of a rule.
fn is_known_rule(value: &Value) -> bool
    ensures { result ≡ is_known (λ _. rule_table) (Some (view value.now)) }
{
    match value.as_table() {
        Some(table) => has_rule_keys(table),
        None => false,
    }
}

/// Whether all values are tables with nothing but keys of a member.
fn are_known_members(list: &[Value]) -> bool
    ensures { result ≡ list_all (λ it. is_known (λ _. member_table) (Some (view it))) list.now }
{
    list.iter().all(|value| is_known_member(value))
}

/// Whether all values are tables with nothing but keys of a rule.
fn are_known_rules(list: &[Value]) -> bool
    ensures { result ≡ list_all (λ it. is_known (λ _. rule_table) (Some (view it))) list.now }
{
    list.iter().all(|value| is_known_rule(value))
}

/// Whether the list of members, where there is one, has nothing but keys of a member.
fn has_known_members(table: &Table) -> bool
    ensures { result ≡ is_known_list member_table (get_member (codes "member") (table_view table.now)) }
{
    let Some(value) = table.get(MEMBERS) else {
        return true;
    };
    match value.as_array() {
        Some(list) => are_known_members(list),
        None => false,
    }
}

/// Whether the list of rules, where there is one, has nothing but keys of a rule.
fn has_known_rules(table: &Table) -> bool
    ensures { result ≡ is_known_list rule_table (get_member (codes "rule") (table_view table.now)) }
{
    let Some(value) = table.get(RULES) else {
        return true;
    };
    match value.as_array() {
        Some(list) => are_known_rules(list),
        None => false,
    }
}

/// Whether a table has no keys but `member` and `rule`.
fn has_lists_alone(table: &Table) -> bool
    ensures { result ≡ list_all (λ key. same_octets (string_bytes key) (codes "member")
        || same_octets (string_bytes key) (codes "rule")) (keys table.now) }
{
    table
        .keys()
        .all(|key| key.as_str() == MEMBERS || key.as_str() == RULES)
}

/// Whether a table `policy` has nothing but lists of members and rules, with nothing but keys of theirs.
pub(crate) fn has_policy_keys(table: &Table) -> bool
    ensures { result ≡ is_known_policy (Some (toml_table (table_view table.now))) }
{
    if !has_lists_alone(table) {
        return false;
    }
    if !has_known_members(table) {
        return false;
    }
    has_known_rules(table)
}
