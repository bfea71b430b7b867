//! The policy, read from the table `policy` of a document.
ghost use Rattle.std.specs.Prelude.{◌≡◌, List, Option, [], codes, map, Some, None, IfOk, IfErr, IsSome, OnOk, true};
ghost use Rattle.toml.specs.Data.{get_member};
ghost use Rattle.toml.specs.View.{table_view, view};
ghost use Rattle.bsc_policy.specs.declared.member.Member.{Member as MemberType};
ghost use Rattle.bsc_policy.specs.declared.rule.Rule.{Rule as RuleType};
ghost use Rattle.bsc_settings.specs.Faults.{policy_fault};
ghost use Rattle.bsc_settings.specs.declared.key.KeyName.TheVariants.{PolicyMember, PolicyRule};
ghost use Rattle.bsc_settings.specs.declared.refusal.EntryFault.{EntryFault as FaultType};
ghost use Rattle.bsc_settings.specs.declared.refusal.PolicyRefusal.TheVariants as refused;
ghost use Rattle.bsc_settings.specs.Lists.{IsForKey, IsUnread, NamesEntry, Refuses, Tells, after, after_all};
ghost use Rattle.bsc_settings.specs.Policies.{are_members, are_rules, member_in, member_said, members_in, parts_in, parts_of, rule_in, rule_said, rules_in};
ghost use Rattle.bsc_settings.specs.Refusals.{IsOfKey, IsOfMembers, IsOfRules, IsWhy, first_missing, member_fault, member_rows, rule_fault, rule_rows, unruled, untaken};

use crate::policy_rows::{MEMBER_DEVICE, MEMBER_GROUP, MEMBER_VMAC, RULE_DO, RULE_FROM, RULE_TO};
use crate::refusal::{EntryFault, PolicyRefusal};
use crate::unread::Unread;
use crate::values::{read_address, read_allows, read_group, read_side, read_uuid};
use bsc_octets::{DeviceId, Vmac};
use bsc_policy::{Policy, PolicyFault};
use std::alloc::Global;
use toml::{Table, Value};

/// What a table `policy` calls the list of its members.
pub(crate) const MEMBERS: &str = "member";

/// What it calls the list of its rules.
pub(crate) const RULES: &str = "rule";

/// What a table says of a member. The text of its group is where the document has it.
#[derive(Clone, Copy)]
pub(crate) struct MemberSaid<'a> {
    pub(crate) device: DeviceId,
    pub(crate) vmac: Vmac,
    pub(crate) group: &'a str,
}

/// What a table says of a rule, likewise.
#[derive(Clone, Copy)]
pub(crate) struct RuleSaid<'a> {
    pub(crate) allows: bool,
    pub(crate) from: &'a str,
    pub(crate) to: &'a str,
}

/// What a table says of a member, or what is wrong with it.
fn read_member<'a>(table: &'a Table) -> Result<MemberSaid<'a>, EntryFault>
    ensures said { IfOk result (λ m. member_in (table_view table.now)
        ≡ Some (record { device = m.device; vmac = m.vmac; group = m.group.now })) }
    ensures fault { IfErr result (λ _. member_in (table_view table.now) ≡ None) }
    ensures fine { IfOk result (λ _. first_missing member_rows (table_view table.now) ≡ None) }
    ensures missing { IfErr result (λ fault. first_missing member_rows (table_view table.now) ≡ Some fault) }
{
    let Ok(device) = read_uuid(table, MEMBER_DEVICE) else {
        return Err(EntryFault::Device);
    };
    let Ok(vmac) = read_address(table, MEMBER_VMAC) else {
        return Err(EntryFault::Vmac);
    };
    let Ok(group) = read_group(table, MEMBER_GROUP) else {
        return Err(EntryFault::Group);
    };
    Ok(MemberSaid {
        device,
        vmac,
        group,
    })
}

/// What a table says of a rule, or what is wrong with it.
fn read_rule<'a>(table: &'a Table) -> Result<RuleSaid<'a>, EntryFault>
    ensures said { IfOk result (λ r. rule_in (table_view table.now)
        ≡ Some (record { allows = r.allows; from = r.from.now; to = r.to.now })) }
    ensures fault { IfErr result (λ _. rule_in (table_view table.now) ≡ None) }
    ensures fine { IfOk result (λ _. first_missing rule_rows (table_view table.now) ≡ None) }
    ensures missing { IfErr result (λ fault. first_missing rule_rows (table_view table.now) ≡ Some fault) }
{
    let Ok(allows) = read_allows(table, RULE_DO) else {
        return Err(EntryFault::Do);
    };
    let Ok(from) = read_side(table, RULE_FROM) else {
        return Err(EntryFault::From);
    };
    let Ok(to) = read_side(table, RULE_TO) else {
        return Err(EntryFault::To);
    };
    Ok(RuleSaid { allows, from, to })
}

/// What a value of the list says of a member, or what is wrong with it.
pub(crate) fn member_said<'a>(value: &'a Value) -> Result<MemberSaid<'a>, EntryFault>
    ensures said { IfOk result (λ m. member_said (view value.now)
        ≡ Some (record { device = m.device; vmac = m.vmac; group = m.group.now })) }
    ensures fault { IfErr result (λ _. member_said (view value.now) ≡ None) }
    ensures fine { IfOk result (λ m. (before : List MemberType) → member_fault before (view value.now)
        ≡ untaken before (Some (record { device = m.device; vmac = m.vmac; group = m.group.now }))) }
    ensures wrong { IfErr result (λ fault. (before : List MemberType) → member_fault before (view value.now) ≡ Some fault) }
{
    match value.as_table() {
        Some(table) => read_member(table),
        None => Err(EntryFault::NoTable),
    }
}

/// What a value of the list says of a rule, or what is wrong with it.
pub(crate) fn rule_said<'a>(value: &'a Value) -> Result<RuleSaid<'a>, EntryFault>
    ensures said { IfOk result (λ r. rule_said (view value.now)
        ≡ Some (record { allows = r.allows; from = r.from.now; to = r.to.now })) }
    ensures fault { IfErr result (λ _. rule_said (view value.now) ≡ None) }
    ensures fine { IfOk result (λ _. (before : List RuleType) → rule_fault before (view value.now) ≡ unruled before) }
    ensures wrong { IfErr result (λ fault. (before : List RuleType) → rule_fault before (view value.now) ≡ Some fault) }
{
    match value.as_table() {
        Some(table) => read_rule(table),
        None => Err(EntryFault::NoTable),
    }
}

/// A policy that is refused for a member.
fn unfit_member(entry: u32, fault: EntryFault) -> Unread
    ensures key { IsForKey PolicyMember result }
    ensures entry { (wrong : Option FaultType) → wrong ≡ Some fault → Tells (NamesEntry (λ n f. refused.Member n f) entry wrong) result }
{
    Unread::Refused(PolicyRefusal::Member { entry, fault })
}

/// A policy that is refused for a rule.
fn unfit_rule(entry: u32, fault: EntryFault) -> Unread
    ensures key { IsForKey PolicyRule result }
    ensures entry { (wrong : Option FaultType) → wrong ≡ Some fault → Tells (NamesEntry (λ n f. refused.Rule n f) entry wrong) result }
{
    Unread::Refused(PolicyRefusal::Rule { entry, fault })
}

/// Takes the member that a value says behind the others: the entry with this number of the list.
fn take_member(policy: &mut Policy, value: &Value, entry: u32) -> Result<(), Unread>
    requires { are_members policy.old.members.items ≡ true }
    ensures taken { OnOk result (after member_said are_members policy.old.members.items (view value.now) ≡ Some policy.new.members.items) }
    ensures untaken { IfErr result (λ why. IsUnread why PolicyMember (after member_said are_members policy.old.members.items (view value.now))) }
    ensures entry { IfErr result (λ why. Tells (NamesEntry (λ n f. refused.Member n f) entry (member_fault policy.old.members.items (view value.now))) why) }
    ensures rules { policy.new.rules.items ≡ policy.old.rules.items }
{
    let said = match member_said(value) {
        Ok(said) => said,
        Err(fault) => return Err(unfit_member(entry, fault)),
    };
    match policy.member(said.device, said.vmac, said.group) {
        Ok(()) => Ok(()),
        Err(PolicyFault::Full { held }) => {
            Err(unfit_member(entry, EntryFault::Full { most: held }))
        }
        Err(PolicyFault::Twice { member }) => Err(unfit_member(
            entry,
            EntryFault::Twice {
                entry: member.saturating_add(1),
            },
        )),
        Err(PolicyFault::NoMemory) => Err(Unread::NoMemory),
    }
}

/// Takes the rule that a value says behind the others: the entry with this number of the list.
fn take_rule(policy: &mut Policy, value: &Value, entry: u32) -> Result<(), Unread>
    requires { are_rules policy.old.rules.items ≡ true }
    ensures taken { OnOk result (after rule_said are_rules policy.old.rules.items (view value.now) ≡ Some policy.new.rules.items) }
    ensures untaken { IfErr result (λ why. IsUnread why PolicyRule (after rule_said are_rules policy.old.rules.items (view value.now))) }
    ensures entry { IfErr result (λ why. Tells (NamesEntry (λ n f. refused.Rule n f) entry (rule_fault policy.old.rules.items (view value.now))) why) }
    ensures members { policy.new.members.items ≡ policy.old.members.items }
{
    let said = match rule_said(value) {
        Ok(said) => said,
        Err(fault) => return Err(unfit_rule(entry, fault)),
    };
    match policy.rule(said.allows, said.from, said.to) {
        Ok(()) => Ok(()),
        Err(PolicyFault::Full { held }) => Err(unfit_rule(entry, EntryFault::Full { most: held })),
        Err(PolicyFault::Twice { .. }) => unreachable!(),
        Err(PolicyFault::NoMemory) => Err(Unread::NoMemory),
    }
}

/// Takes the members that these values say into a policy without any.
fn take_members(policy: &mut Policy, list: &[Value]) -> Result<(), Unread>
    requires { policy.old.members.items ≡ [] }
    ensures taken { OnOk result (after_all member_said are_members policy.old.members.items (map view list.now) ≡ Some policy.new.members.items) }
    ensures untaken { IfErr result (λ why. IsUnread why PolicyMember (after_all member_said are_members policy.old.members.items (map view list.now))) }
    ensures first { IfErr result (λ why. Tells (IsOfMembers (map view list.now)) why) }
    ensures rules { policy.new.rules.items ≡ policy.old.rules.items }
{
    let mut entry = 0u32;
    for value in list {
        entry = entry.saturating_add(1);
        take_member(policy, value, entry)?;
    }
    Ok(())
}

/// Takes the rules that these values say into a policy without any.
fn take_rules(policy: &mut Policy, list: &[Value]) -> Result<(), Unread>
    requires { policy.old.rules.items ≡ [] }
    ensures taken { OnOk result (after_all rule_said are_rules policy.old.rules.items (map view list.now) ≡ Some policy.new.rules.items) }
    ensures untaken { IfErr result (λ why. IsUnread why PolicyRule (after_all rule_said are_rules policy.old.rules.items (map view list.now))) }
    ensures first { IfErr result (λ why. Tells (IsOfRules (map view list.now)) why) }
    ensures members { policy.new.members.items ≡ policy.old.members.items }
{
    let mut entry = 0u32;
    for value in list {
        entry = entry.saturating_add(1);
        take_rule(policy, value, entry)?;
    }
    Ok(())
}

/// Takes the members that a table `policy` lists into a policy without any.
fn read_members(policy: &mut Policy, table: &Table) -> Result<(), Unread>
    requires { policy.old.members.items ≡ [] }
    ensures taken { OnOk result (members_in (table_view table.now) ≡ Some policy.new.members.items) }
    ensures untaken { IfErr result (λ why. IsUnread why PolicyMember (members_in (table_view table.now))) }
    ensures why { IfErr result (λ why. Tells (IsOfKey IsOfMembers refused.MemberList (get_member (codes "member") (table_view table.now))) why) }
    ensures rules { policy.new.rules.items ≡ policy.old.rules.items }
{
    let Some(value) = table.get(MEMBERS) else {
        return Ok(());
    };
    match value.as_array() {
        Some(list) => take_members(policy, list),
        None => Err(Unread::Refused(PolicyRefusal::MemberList)),
    }
}

/// Takes the rules that a table `policy` lists into a policy without any.
fn read_rules(policy: &mut Policy, table: &Table) -> Result<(), Unread>
    requires { policy.old.rules.items ≡ [] }
    ensures taken { OnOk result (rules_in (table_view table.now) ≡ Some policy.new.rules.items) }
    ensures untaken { IfErr result (λ why. IsUnread why PolicyRule (rules_in (table_view table.now))) }
    ensures why { IfErr result (λ why. Tells (IsOfKey IsOfRules refused.RuleList (get_member (codes "rule") (table_view table.now))) why) }
    ensures members { policy.new.members.items ≡ policy.old.members.items }
{
    let Some(value) = table.get(RULES) else {
        return Ok(());
    };
    match value.as_array() {
        Some(list) => take_rules(policy, list),
        None => Err(Unread::Refused(PolicyRefusal::RuleList)),
    }
}

/// The policy that a table says, settled, or why there is none.
pub(crate) fn read_policy(alloc: Global, table: &Table) -> Result<Policy, Unread>
    ensures parts { IfOk result (λ p. parts_of p ≡ parts_in (table_view table.now)) }
    ensures settled { IfOk result (λ p. IsSome p.tables) }
    ensures unread { IfErr result (λ why. Refuses why (policy_fault (Some (table_view table.now)))) }
    ensures why { IfErr result (λ why. Tells (IsWhy (table_view table.now)) why) }
{
    let mut policy = Policy::make(alloc);
    read_members(&mut policy, table)?;
    read_rules(&mut policy, table)?;
    policy.settle()?;
    Ok(policy)
}
