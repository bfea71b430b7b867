//! Settings, read from the octets of a document.
ghost use Rattle.std.specs.Prelude.{◌≡◌, ◌⊎◌, Some, None, Err, IsOk, IfOk, IfErr, IfSome, IsSome, true, option_map};
ghost use Rattle.std.specs.Arc.{arc_value};
ghost use Rattle.toml.specs.Data.{Members};
ghost use Rattle.toml.specs.View.{table_view};
ghost use Rattle.bsc_settings.specs.declared.key.KeyName.{KeyName as KeyNameType};
ghost use Rattle.bsc_settings.specs.declared.hub_said.HubSaid.TheVariants as hub_said;
ghost use Rattle.bsc_settings.specs.declared.fault.SettingFault.TheVariants as setting_fault;
ghost use Rattle.bsc_settings.specs.Table.{hub_table};
ghost use Rattle.bsc_settings.specs.Documents.{IsDocument, hub_of, node_of, policy_of, node_rows_of};
ghost use Rattle.bsc_settings.specs.Faults.{fault_in, fault_of, policy_fault, NamesFirst};
ghost use Rattle.bsc_settings.specs.Fields.{node_fields_of, values_of, IsSaidBy};
ghost use Rattle.bsc_settings.specs.Names.{key_of};
ghost use Rattle.bsc_settings.specs.Policies.{parts_in, parts_of};
ghost use Rattle.bsc_settings.specs.Refusals.{IsWhy};
ghost use Rattle.bsc_settings.specs.Steps.{TableSays, IsLate};

use crate::fault::SettingFault;
use crate::hub_said::HubSaid;
use crate::hub_table::read_hub;
use crate::key::KeyName;
use crate::known::{has_known_alone, hub_of, node_of, policy_of};
use crate::node::NodeSettings;
use crate::node_table::read_node;
use crate::policy_table::read_policy;
use crate::refusal::PolicyRefusal;
use crate::settings::Settings;
use crate::unread::Unread;
use bsc_policy::Policy;
use std::alloc::Global;
use std::sync::Arc;
use toml::Table;

/// What a document says of a hub, or the first key of `hub` at fault.
fn hub_in(doc: &Table) -> Result<HubSaid, KeyName>
    ensures says { IfOk result (TableSays (hub_of (table_view doc.now))) }
    ensures fine { IfOk result (λ _. fault_in (λ _. hub_table) (hub_of (table_view doc.now)) ≡ None) }
    ensures fault { IfErr result (λ key. fault_in (λ _. hub_table) (hub_of (table_view doc.now)) ≡ Some key) }
{
    match hub_of(doc) {
        Some(table) => read_hub(table),
        None => Ok(HubSaid::Settings(None)),
    }
}

/// The settings of a node, where a document has the table `node`, or the first key of it at fault.
fn node_in(alloc: Global, doc: &Table) -> Result<Option<NodeSettings>, SettingFault>
    ensures fields { IfOk result (λ n. option_map node_fields_of n
        ≡ option_map (λ t. values_of (node_rows_of t) t) (node_of (table_view doc.now))) }
    ensures fine { IfOk result (λ _. fault_in node_rows_of (node_of (table_view doc.now)) ≡ None) }
    ensures fault { IfErr result (λ fault. NamesFirst fault (fault_in node_rows_of (node_of (table_view doc.now)))) }
{
    match node_of(doc) {
        Some(table) => Ok(Some(read_node(alloc, table)?)),
        None => Ok(None),
    }
}

/// A policy that is shared.
fn share(alloc: Global, policy: Policy) -> Result<Option<Arc<Policy>>, SettingFault>
    ensures same { IfOk result (λ p. option_map arc_value p ≡ Some policy) }
    ensures memory { IfErr result (λ fault. fault ≡ setting_fault.NoMemory) }
{
    match Arc::new(alloc, policy) {
        Ok(policy) => Ok(Some(policy)),
        Err(_) => Err(SettingFault::NoMemory),
    }
}

/// The policy that all who ask it share, where a document has the table `policy`, or the first list of it at fault.
fn policy_in(alloc: Global, doc: &Table) -> Result<Option<Arc<Policy>>, SettingFault>
    ensures parts { IfOk result (λ p. option_map (λ it. parts_of (arc_value it)) p
        ≡ option_map parts_in (policy_of (table_view doc.now))) }
    ensures settled { IfOk result (λ p. IfSome p (λ it. IsSome (arc_value it).tables)) }
    ensures fine { IfOk result (λ _. policy_fault (policy_of (table_view doc.now)) ≡ None) }
    ensures fault { IfErr result (λ fault. NamesFirst fault (policy_fault (policy_of (table_view doc.now)))) }
{
    let Some(table) = policy_of(doc) else {
        return Ok(None);
    };
    match read_policy(alloc, table) {
        Ok(policy) => share(alloc, policy),
        Err(Unread::Refused(refusal)) => Err(SettingFault::from(refusal.key())),
        Err(Unread::NoMemory) => Err(SettingFault::NoMemory),
    }
}

/// Why the policy of a document is refused, where it is.
fn refusal_in(alloc: Global, doc: &Table) -> Option<PolicyRefusal>
    ensures key { IfSome result (λ r. policy_fault (policy_of (table_view doc.now)) ≡ Some (key_of r)) }
    ensures why { IfSome result (λ r. (table : Members) × (policy_of (table_view doc.now) ≡ Some table) × IsWhy table r) }
{
    let table = policy_of(doc)?;
    match read_policy(alloc, table) {
        Err(Unread::Refused(refusal)) => Some(refusal),
        Ok(_) | Err(Unread::NoMemory) => None,
    }
}

/// The settings of these, where the product of the limits is small and the document has nothing unknown.
fn whole(
    said: HubSaid,
    node: Option<NodeSettings>,
    policy: Option<Arc<Policy>>,
    known: bool,
) -> Result<Settings, KeyName>
    ensures ok { IfOk result (λ s. (said ≡ hub_said.Settings s.hub) × (s.node ≡ node) × (s.policy ≡ policy) × (known ≡ true)) }
    ensures err { IfErr result (λ key. IsLate said known key) }
{
    match said {
        HubSaid::Settings(hub) if known => Ok(Settings { hub, node, policy }),
        HubSaid::Settings(_) => Err(KeyName::Unknown),
        HubSaid::LargeProduct => Err(KeyName::HubProduct),
    }
}

/// No settings, for this fault, where those of a node were read.
fn refused(_node: Option<NodeSettings>, fault: SettingFault) -> Result<Settings, SettingFault>
    ensures { result ≡ Err fault }
{
    Err(fault)
}

/// The settings that a document says.
fn settings_of(alloc: Global, doc: &Table) -> Result<Settings, SettingFault>
    ensures said { IfOk result (IsSaidBy (table_view doc.now)) }
    ensures settled { IfOk result (λ s. IfSome s.policy (λ it. IsSome (arc_value it).tables)) }
    ensures fault { IfErr result (λ fault. NamesFirst fault (fault_of (table_view doc.now))) }
{
    let said = hub_in(doc)?;
    let node = node_in(alloc, doc)?;
    match policy_in(alloc, doc) {
        Ok(policy) => Ok(whole(said, node, policy, has_known_alone(doc))?),
        Err(fault) => refused(node, fault),
    }
}

/// Reads settings from a TOML document.
///
/// A document may have the tables `hub`, `node` and `policy`, and nothing else; `docs/SETTINGS.md` has their keys. Where several
/// things are at fault, the first key of `hub` in the order of its table is named, then the first of `node`, then the members
/// of the policy, then its rules, then the product of the limits, then a key or a table that settings don't have. Octets that
/// aren't UTF-8, or aren't TOML, are `NotToml`. `NoMemory` may be answered of any document.
pub fn read_settings(alloc: Global, text: &[u8]) -> Result<Settings, SettingFault>
    // Settings are those of the document.
    ensures found { IfOk result (λ s. (doc : Members) × IsDocument text.now doc × IsSaidBy doc s) }
    // A policy is settled, so that a decision costs the same with any number of members and rules.
    ensures settled { IfOk result (λ s. IfSome s.policy (λ it. IsSome (arc_value it).tables)) }
    // A key that is named is the first at fault.
    ensures refused { (key : KeyNameType) → result ≡ Err (SettingFault.Key key)
        → (doc : Members) × IsDocument text.now doc × (fault_of doc ≡ Some key) }
    // What isn't TOML is no document.
    ensures not_toml { result ≡ Err SettingFault.NotToml → (doc : Members) → ¬ IsDocument text.now doc }
    // A document without a fault gives settings, unless memory runs out.
    ensures good { (doc : Members) → IsDocument text.now doc → fault_of doc ≡ None
        → IsOk result ⊎ (result ≡ Err SettingFault.NoMemory) }
    // The first key at fault is named, unless memory runs out.
    ensures fault { (doc : Members) (key : KeyNameType) → IsDocument text.now doc → fault_of doc ≡ Some key
        → (result ≡ Err (SettingFault.Key key)) ⊎ (result ≡ Err SettingFault.NoMemory) }
{
    match toml::table_from_slice(alloc, text) {
        Ok(doc) => settings_of(alloc, &doc),
        Err(fault) if fault.is_memory() => Err(SettingFault::NoMemory),
        Err(_) => Err(SettingFault::NotToml),
    }
}

/// Why the policy of a document is refused, where it is: which entry of which list is at fault, and what is wrong with it. It
/// is None where the document has no policy or a good one, and where it isn't TOML or memory runs out.
pub fn refusal_of(alloc: Global, text: &[u8]) -> Option<PolicyRefusal>
    // It names the list that is at fault.
    ensures key { IfSome result (λ r. (doc : Members) × IsDocument text.now doc × (policy_fault (policy_of doc) ≡ Some (key_of r))) }
    // It names the first entry of it that is at fault, and what is wrong with that.
    ensures why { IfSome result (λ r. (doc : Members) × (table : Members) × IsDocument text.now doc × (policy_of doc ≡ Some table) × IsWhy table r) }
{
    match toml::table_from_slice(alloc, text) {
        Ok(doc) => refusal_in(alloc, &doc),
        Err(_) => None,
    }
}
