//! What is told of the settings of a hub.
ghost use Rattle.std.specs.Prelude.{◌≡◌, ◌++◌, flat_map, IfOk, option_map};
ghost use Rattle.std.specs.Arc.{arc_value};
ghost use Rattle.toml.specs.Data.{Members};
ghost use Rattle.bsc_settings.specs.declared.settings.Settings.{Settings};
ghost use Rattle.bsc_settings.specs.Documents.{IsDocument};
ghost use Rattle.bsc_settings.specs.Fields.{fields_of, IsSaidBy};
ghost use Rattle.bsc_settings.specs.Listed.{listed_by};
ghost use Rattle.bsc_settings.specs.Table.{hub_table};
ghost use Rattle.bsc_settings_told.specs.Lines.{lines_of};
ghost use Rattle.bsc_settings_told.specs.Told.{hub_lines, hub_told, listed_lines};
ghost use Rattle.bsc_settings_told.specs.Written.{line_of};

use crate::line::{Line, Told};
use crate::lines::put_lines;
use crate::policy_told::put_policy;
use bsc_lines::put_words;
use bsc_octets::NoMemory;
use bsc_settings::{HubSettings, MOST_TURNS, PolicyLists, policy_lists};
use std::alloc::Global;

/// The lines of the table `hub`.
fn hub_rows<'a>(hub: &HubSettings) -> [Line<'a>; 11]
    ensures { flat_map line_of result ≡ lines_of hub_table (fields_of hub.now) }
{
    [
        Line("vmac", None, Told::Address(hub.vmac)),
        Line("uuid", None, Told::Device(hub.uuid)),
        Line("port", None, Told::Number16(hub.port)),
        Line("max_bvlc", Some(16_384), Told::Number16(hub.max_bvlc)),
        Line("max_npdu", Some(1_497), Told::Number16(hub.max_npdu)),
        Line("rows", Some(256), Told::Number32(hub.rows)),
        Line("outbox", Some(64), Told::Number32(hub.outbox)),
        Line(
            "connect_wait_ms",
            Some(10_000),
            Told::Number32(hub.connect_wait_ms),
        ),
        Line(
            "disconnect_wait_ms",
            Some(10_000),
            Told::Number32(hub.disconnect_wait_ms),
        ),
        Line(
            "heartbeat_ms",
            Some(300_000),
            Told::Number32(hub.heartbeat_ms),
        ),
        Line("turns", Some(MOST_TURNS), Told::Number64(hub.turns)),
    ]
}

/// Puts the table `hub`.
fn put_hub(text: &mut Vec<u8>, alloc: Global, hub: &HubSettings) -> Result<(), NoMemory>
    ensures { IfOk result (λ _. text.new.items ≡ text.old.items ++ hub_lines hub.now) }
{
    put_words(text, "[hub]\n")?;
    let rows = hub_rows(hub);
    put_lines(text, alloc, &rows)
}

/// The document that tells the settings of a hub, and what a policy lists.
fn tell_listed(
    alloc: Global,
    hub: &HubSettings,
    policy: &Option<PolicyLists>,
) -> Result<Vec<u8>, NoMemory>
    ensures { IfOk result (λ t. t.items ≡ hub_lines hub.now ++ listed_lines (option_map listed_by policy.now)) }
{
    let mut told = Vec::new(alloc);
    put_hub(&mut told, alloc, hub)?;
    put_policy(&mut told, alloc, policy)?;
    Ok(told)
}

/// The document that tells the settings of a hub, and the policy that stands beside them in the document that they were read from:
/// each with its value, and whether that is the default. It reads that document once more.
pub fn tell_hub(alloc: Global, hub: &HubSettings, text: &[u8]) -> Result<Vec<u8>, NoMemory>
    ensures { IfOk result (λ t. (doc : Members) (settings : Settings) → IsDocument text.now doc → IsSaidBy doc settings
        → t.items ≡ hub_told hub.now (option_map (λ p. arc_value p) settings.policy)) }
{
    let policy = policy_lists(alloc, text)?;
    Ok(tell_listed(alloc, hub, &policy)?)
}
