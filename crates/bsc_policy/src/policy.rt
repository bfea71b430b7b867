//! A policy over groups of devices.
ghost use Rattle.std.specs.Prelude.{◌≡◌, ◌≢◌, ◌≤◌, ◌<◌, ◌↔◌, ℕ, [], ◌∷◌, ◌++◌, length, position, Some, IfSome, IsSome, Err, OnOk, OnErr};
ghost use Rattle.std.proofs.Props.{props};
ghost use Rattle.bsc_policy.specs.declared.bounds.TheConstants.{MEMBERS, RULES};
ghost use Rattle.bsc_policy.specs.declared.fault.PolicyFault.{PolicyFault};
ghost use Rattle.bsc_policy.specs.Decisions.{decided_of, group_of, is_admitted, number_between};
ghost use Rattle.bsc_policy.specs.Tables.{AreTablesOf};
ghost use Rattle.bsc_policy.specs.Writing.{is_taken_by};

use crate::bounds::{MEMBERS, RULES};
use crate::decision::Decision;
use crate::fault::PolicyFault;
use crate::looking::{decided_by, member_at, number_between, taken_at};
use crate::member::Member;
use crate::names::copy_of;
use crate::rule::Rule;
use crate::tables::Tables;
use bsc_octets::{DeviceId, Identity, NoMemory, Octets, Vmac};
use std::alloc::Global;

/// Room for the most members.
const MEMBER_ROOM: usize = MEMBERS as usize;

/// Room for the most rules.
const RULE_ROOM: usize = RULES as usize;

/// A policy: its members and its rules, in the order in which they were taken.
///
/// A policy is made, takes members and rules, and is settled once it has all. From then on a decision costs the same
/// with any number of them. Before it is settled, and again where it takes one more, it decides the same by looking at them
/// one by one.
#[derive(Drop)]
pub struct Policy {
    alloc: Global,
    pub(crate) members: Vec<Member>,
    pub(crate) rules: Vec<Rule>,
    tables: Option<Tables>,
    ghost few: { length members.items ≤ MEMBERS },
    ghost short: { length rules.items ≤ RULES },
    ghost told: { IfSome tables (AreTablesOf members.items rules.items) } by { Prim.hlevel props },
}

/// A member of these.
fn new_member(device: DeviceId, vmac: Vmac, group: Octets) -> Member
    ensures { result ≡ record { device = device; vmac = vmac; group = group } }
{
    Member {
        device,
        vmac,
        group,
    }
}

impl Policy {
    /// A policy without members and rules. It admits nobody and denies everything.
    pub fn make(alloc: Global) -> Policy
        ensures members { result.members.items ≡ [] }
        ensures rules { result.rules.items ≡ [] }
    {
        Policy {
            alloc,
            members: Vec::new(alloc),
            rules: Vec::new(alloc),
            tables: None,
        }
    }

    /// Takes a member more: a device that is admitted under an address, and the group that it is in. `MEMBERS` are taken,
    /// and no two with the same address or the same device.
    pub fn member(&mut self, device: DeviceId, vmac: Vmac, group: &str) -> Result<(), PolicyFault>
        ensures full { (held : ℕ) → (result ≡ Err (PolicyFault.Full held)) ↔ ((held ≡ MEMBERS) × (MEMBERS ≤ length self.old.members.items)) }
        ensures twice { (i : ℕ) → (result ≡ Err (PolicyFault.Twice i))
            ↔ ((length self.old.members.items < MEMBERS) × (position (is_taken_by vmac device) self.old.members.items ≡ Some i)) }
        ensures ok { OnOk result (self.new.members.items ≡ self.old.members.items ++ record { device = device; vmac = vmac; group = group.now } ∷ []) }
        ensures err { OnErr result (self.new.members.items ≡ self.old.members.items) }
        ensures rules { self.new.rules.items ≡ self.old.rules.items }
    {
        if self.members.len() >= MEMBER_ROOM {
            return Err(PolicyFault::Full { held: MEMBERS });
        }
        if let Some(place) = taken_at(&self.members, vmac, &device) {
            return Err(PolicyFault::Twice {
                member: place as u32,
            });
        }
        let name = copy_of(self.alloc, group.as_bytes())?;
        self.tables = None;
        match self.members.push(new_member(device, vmac, name)) {
            Ok(()) => Ok(()),
            Err(_) => Err(PolicyFault::NoMemory),
        }
    }

    /// Takes a rule more, behind the others: it allows or denies what goes from the members of one group to those of
    /// another, and `*` stands for all groups. `RULES` are taken.
    pub fn rule(&mut self, allow: bool, from: &str, to: &str) -> Result<(), PolicyFault>
        ensures full { (held : ℕ) → (result ≡ Err (PolicyFault.Full held)) ↔ ((held ≡ RULES) × (RULES ≤ length self.old.rules.items)) }
        ensures twice { (i : ℕ) → result ≢ Err (PolicyFault.Twice i) }
        ensures ok { OnOk result (self.new.rules.items ≡ self.old.rules.items ++ record { allows = allow; from = from.now; to = to.now } ∷ []) }
        ensures err { OnErr result (self.new.rules.items ≡ self.old.rules.items) }
        ensures members { self.new.members.items ≡ self.old.members.items }
    {
        if self.rules.len() >= RULE_ROOM {
            return Err(PolicyFault::Full { held: RULES });
        }
        let from = copy_of(self.alloc, from.as_bytes())?;
        let to = copy_of(self.alloc, to.as_bytes())?;
        self.tables = None;
        match self.rules.push(Rule {
            allows: allow,
            from,
            to,
        }) {
            Ok(()) => Ok(()),
            Err(_) => Err(PolicyFault::NoMemory),
        }
    }

    /// Makes the tables by which decisions cost the same from now on. What is decided stays as it is.
    pub fn settle(&mut self) -> Result<(), NoMemory>
        ensures settled { OnOk result (IsSome self.new.tables) }
        ensures members { self.new.members.items ≡ self.old.members.items }
        ensures rules { self.new.rules.items ≡ self.old.rules.items }
    {
        let tables = Tables::make(self.alloc, &self.members, &self.rules)?;
        self.tables = Some(tables);
        Ok(())
    }

    /// Whether a device is admitted under its address: whether one member has both.
    pub fn admits(&self, who: &Identity) -> bool
        ensures { result ≡ is_admitted self.now.members.items who.now }
    {
        self.members
            .iter()
            .any(|m| m.vmac == who.vmac && m.device == who.device)
    }

    /// The number of the rule that decides.
    fn number(&self, from: Vmac, to: Vmac) -> u16
        ensures { result ≡ number_between self.now.rules.items (group_of self.now.members.items from) (group_of self.now.members.items to) }
    {
        match &self.tables {
            Some(tables) => tables.number(from, to),
            None => number_between(
                &self.rules,
                member_at(&self.members, from),
                member_at(&self.members, to),
            ),
        }
    }

    /// What is decided of what goes from one address to another: where both have members, the first rule that applies to
    /// their groups says it. Else, and where none applies, it is denied by rule 0.
    pub fn decides(&self, from: Vmac, to: Vmac) -> Decision
        ensures { result ≡ decided_of self.now.members.items self.now.rules.items from to }
    {
        decided_by(&self.rules, self.number(from, to))
    }
}
