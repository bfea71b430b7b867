//! Members and rules, looked at one by one.
ghost use Rattle.std.specs.Prelude.{◌≡◌, ◌≤◌, find, length, option_map, position};
ghost use Rattle.bsc_octets.specs.Addresses.{same_vmac};
ghost use Rattle.bsc_policy.specs.Decisions.{applies, decided_by, group_in, number_between, number_of};
ghost use Rattle.bsc_policy.specs.Writing.{is_taken_by};

use crate::bounds::RULES;
use crate::decision::Decision;
use crate::member::Member;
use crate::rule::{Rule, applies};
use bsc_octets::{DeviceId, Vmac};

/// The place of a member that has this address or this device.
pub(crate) fn taken_at(members: &[Member], vmac: Vmac, device: &DeviceId) -> Option<usize>
    ensures { result ≡ position (is_taken_by vmac device.now) members.now }
{
    members
        .iter()
        .position(|m| m.vmac == vmac || m.device == *device)
}

/// The member that has an address.
pub(crate) fn member_at(members: &[Member], v: Vmac) -> Option<&Member>
    ensures { option_map (λ m. m.now) result ≡ find (λ m. same_vmac m.vmac v) members.now }
{
    members.iter().find(|m| m.vmac == v)
}

/// The place of the first rule that applies.
fn first_at(rules: &[Rule], from: &[u8], to: &[u8]) -> Option<usize>
    ensures { result ≡ position (applies from.now to.now) rules.now }
{
    rules.iter().position(|rule| applies(rule, from, to))
}

/// The number of the first rule that applies. It is 0 where none does.
pub(crate) fn number_of(rules: &[Rule], from: &[u8], to: &[u8]) -> u16
    requires { length rules.now ≤ RULES }
    ensures { result ≡ number_of rules.now from.now to.now }
{
    match first_at(rules, from, to) {
        Some(i) => i as u16 + 1,
        None => 0,
    }
}

/// The number of the rule that decides between two members, where there are both.
pub(crate) fn number_between(rules: &[Rule], from: Option<&Member>, to: Option<&Member>) -> u16
    requires { length rules.now ≤ RULES }
    ensures { result ≡ number_between rules.now (group_in (option_map (λ m. m.now) from.entry)) (group_in (option_map (λ m. m.now) to.entry)) }
{
    match from {
        Some(from) => match to {
            Some(to) => number_of(rules, from.group.as_slice(), to.group.as_slice()),
            None => 0,
        },
        None => 0,
    }
}

/// What the rule with a number decides.
pub(crate) fn decided_by(rules: &[Rule], number: u16) -> Decision
    ensures { result ≡ decided_by rules.now number }
{
    if number == 0 {
        return Decision::Denied { rule: 0 };
    }
    match rules.get(number as usize - 1) {
        Some(rule) => if rule.allows {
            Decision::Allowed {
                rule: number as u32,
            }
        } else {
            Decision::Denied {
                rule: number as u32,
            }
        },
        None => Decision::Denied { rule: 0 },
    }
}
