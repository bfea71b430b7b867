//! What is told of a policy.
ghost use Rattle.std.specs.Prelude.{◌≡◌, ◌++◌, codes, flat_map, IfOk, option_map};
ghost use Rattle.bsc_settings.specs.Listed.{listed_by};
ghost use Rattle.bsc_settings_told.specs.Told.{listed_lines, member_lines, rule_lines};

use crate::setting::{put_allows, put_text, put_unset, put_uuid, put_vmac};
use bsc_lines::put_words;
use bsc_octets::NoMemory;
use bsc_policy::{Member, Rule};
use bsc_settings::PolicyLists;
use std::alloc::Global;

/// Puts a member.
#[tactic(auto, unfolding(crate::specs::Told::member_lines))]
fn put_member(text: &mut Vec<u8>, alloc: Global, member: &Member) -> Result<(), NoMemory>
    ensures { IfOk result (λ _. text.new.items ≡ text.old.items ++ member_lines member.now) }
{
    put_words(text, "[[policy.member]]\n")?;
    put_uuid(text, alloc, "device", member.device)?;
    put_vmac(text, alloc, "vmac", member.vmac)?;
    put_text(text, alloc, "group", member.group.as_slice())
}

/// Puts a rule.
#[tactic(auto, unfolding(crate::specs::Told::rule_lines))]
fn put_rule(text: &mut Vec<u8>, alloc: Global, rule: &Rule) -> Result<(), NoMemory>
    ensures { IfOk result (λ _. text.new.items ≡ text.old.items ++ rule_lines rule.now) }
{
    put_words(text, "[[policy.rule]]\n")?;
    put_allows(text, alloc, "do", rule.allows)?;
    put_text(text, alloc, "from", rule.from.as_slice())?;
    put_text(text, alloc, "to", rule.to.as_slice())
}

/// Puts members.
fn put_members(text: &mut Vec<u8>, alloc: Global, members: &[Member]) -> Result<(), NoMemory>
    ensures { IfOk result (λ _. text.new.items ≡ text.old.items ++ flat_map member_lines members.now) }
{
    for member in members.iter() {
        put_member(text, alloc, member)?;
    }
    Ok(())
}

/// Puts rules.
fn put_rules(text: &mut Vec<u8>, alloc: Global, rules: &[Rule]) -> Result<(), NoMemory>
    ensures { IfOk result (λ _. text.new.items ≡ text.old.items ++ flat_map rule_lines rules.now) }
{
    for rule in rules.iter() {
        put_rule(text, alloc, rule)?;
    }
    Ok(())
}

/// Puts the table `policy`.
fn put_lists(text: &mut Vec<u8>, alloc: Global, lists: &PolicyLists) -> Result<(), NoMemory>
    ensures { IfOk result (λ _. text.new.items ≡ text.old.items
        ++ (codes "[policy]\n" ++ (flat_map member_lines lists.now.members.items ++ flat_map rule_lines lists.now.rules.items))) }
{
    put_words(text, "[policy]\n")?;
    put_members(text, alloc, lists.members.as_slice())?;
    put_rules(text, alloc, lists.rules.as_slice())
}

/// Puts the table `policy`, or that there is none.
pub(crate) fn put_policy(
    text: &mut Vec<u8>,
    alloc: Global,
    policy: &Option<PolicyLists>,
) -> Result<(), NoMemory>
    ensures { IfOk result (λ _. text.new.items ≡ text.old.items ++ listed_lines (option_map listed_by policy.now)) }
{
    match policy {
        Some(lists) => put_lists(text, alloc, lists),
        None => put_unset(text, "policy"),
    }
}
