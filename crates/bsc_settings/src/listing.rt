//! What the policy of a document lists, for whoever tells an operator.
ghost use Rattle.std.specs.Prelude.{◌≡◌, ◌++◌, codes, flat_map, map, IfOk, OnOk, option_map};
ghost use Rattle.toml.specs.Data.{Members};
ghost use Rattle.toml.specs.View.{table_view, view};
ghost use Rattle.bsc_settings.specs.Documents.{IsDocument, policy_of};
ghost use Rattle.bsc_settings.specs.Listed.{listed_by, listed_in, one_of, sayings_of, values_at};
ghost use Rattle.bsc_settings.specs.Policies.{member_said, rule_said};

use crate::known::policy_of;
use crate::listed_policy::PolicyLists;
use crate::policy_table::{MEMBERS, MemberSaid, RULES, RuleSaid, member_said, rule_said};
use bsc_octets::{NoMemory, Octets};
use bsc_policy::{Member, Rule};
use std::alloc::Global;
use toml::{Table, Value};

/// The octets of a text, in memory of their own.
fn octets_of(alloc: Global, text: &str) -> Result<Octets, NoMemory>
    ensures { IfOk result (λ o. o ≡ text.now) }
{
    Ok(Octets::from_vec(Vec::from_slice(alloc, text.as_bytes())?))
}

/// A member that was said.
fn member_of(alloc: Global, said: MemberSaid<'_>) -> Result<Member, NoMemory>
    ensures { IfOk result (λ m. m ≡ record { device = said.entry.device; vmac = said.entry.vmac; group = said.entry.group.now }) }
{
    let group = octets_of(alloc, said.group)?;
    Ok(Member {
        device: said.device,
        vmac: said.vmac,
        group,
    })
}

/// A rule that was said.
fn rule_of(alloc: Global, said: RuleSaid<'_>) -> Result<Rule, NoMemory>
    ensures { IfOk result (λ r. r ≡ record { allows = said.entry.allows; from = said.entry.from.now; to = said.entry.to.now }) }
{
    let from = octets_of(alloc, said.from)?;
    let to = octets_of(alloc, said.to)?;
    Ok(Rule {
        allows: said.allows,
        from,
        to,
    })
}

/// Puts the member that a value says behind others, where it says one.
fn list_member(members: &mut Vec<Member>, alloc: Global, value: &Value) -> Result<(), NoMemory>
    ensures { OnOk result (members.new.items ≡ members.old.items ++ one_of (member_said (view value.now))) }
{
    let Ok(said) = member_said(value) else {
        return Ok(());
    };
    let member = member_of(alloc, said)?;
    match members.push(member) {
        Ok(()) => Ok(()),
        Err(_) => Err(NoMemory),
    }
}

/// Puts the rule that a value says behind others, where it says one.
fn list_rule(rules: &mut Vec<Rule>, alloc: Global, value: &Value) -> Result<(), NoMemory>
    ensures { OnOk result (rules.new.items ≡ rules.old.items ++ one_of (rule_said (view value.now))) }
{
    let Ok(said) = rule_said(value) else {
        return Ok(());
    };
    let rule = rule_of(alloc, said)?;
    match rules.push(rule) {
        Ok(()) => Ok(()),
        Err(_) => Err(NoMemory),
    }
}

/// The members that values say.
fn list_members(alloc: Global, values: &[Value]) -> Result<Vec<Member>, NoMemory>
    ensures { IfOk result (λ m. m.items ≡ flat_map (λ v. one_of (member_said (view v))) values.now) }
{
    let mut members = Vec::new(alloc);
    for value in values.iter() {
        list_member(&mut members, alloc, value)?;
    }
    Ok(members)
}

/// The rules that values say.
fn list_rules(alloc: Global, values: &[Value]) -> Result<Vec<Rule>, NoMemory>
    ensures { IfOk result (λ r. r.items ≡ flat_map (λ v. one_of (rule_said (view v))) values.now) }
{
    let mut rules = Vec::new(alloc);
    for value in values.iter() {
        list_rule(&mut rules, alloc, value)?;
    }
    Ok(rules)
}

/// The values of the list at a key, where a list stands there.
fn values_at<'a>(table: &'a Table, word: &str) -> Option<&'a [Value]>
    ensures { option_map (λ l. map view l.now) result ≡ values_at word.now (table_view table.now) }
{
    let Some(value) = table.get(word) else {
        return None;
    };
    match value.as_array() {
        Some(list) => Some(list),
        None => None,
    }
}

/// The members that a table `policy` lists.
fn members_in(alloc: Global, table: &Table) -> Result<Vec<Member>, NoMemory>
    ensures { IfOk result (λ m. m.items ≡ sayings_of member_said (values_at (codes "member") (table_view table.now))) }
{
    match values_at(table, MEMBERS) {
        Some(values) => list_members(alloc, values),
        None => Ok(Vec::new(alloc)),
    }
}

/// The rules that it lists.
fn rules_in(alloc: Global, table: &Table) -> Result<Vec<Rule>, NoMemory>
    ensures { IfOk result (λ r. r.items ≡ sayings_of rule_said (values_at (codes "rule") (table_view table.now))) }
{
    match values_at(table, RULES) {
        Some(values) => list_rules(alloc, values),
        None => Ok(Vec::new(alloc)),
    }
}

/// What the table `policy` of a document lists, where the document has it.
fn lists_in(alloc: Global, doc: &Table) -> Result<Option<PolicyLists>, NoMemory>
    ensures { IfOk result (λ l. option_map listed_by l ≡ option_map listed_in (policy_of (table_view doc.now))) }
{
    let Some(table) = policy_of(doc) else {
        return Ok(None);
    };
    let members = members_in(alloc, table)?;
    let rules = rules_in(alloc, table)?;
    Ok(Some(PolicyLists { members, rules }))
}

/// The members and the rules that a document lists in its table `policy`, where it has one: those that its values say, in their
/// order. A document that settings can be read from lists those of its policy. It reads the document once more.
pub fn policy_lists(alloc: Global, text: &[u8]) -> Result<Option<PolicyLists>, NoMemory>
    ensures { IfOk result (λ l. (doc : Members) → IsDocument text.now doc → option_map listed_by l ≡ option_map listed_in (policy_of doc)) }
{
    match toml::table_from_slice(alloc, text) {
        Ok(doc) => lists_in(alloc, &doc),
        Err(fault) if fault.is_memory() => Err(NoMemory),
        Err(_) => Ok(None),
    }
}
