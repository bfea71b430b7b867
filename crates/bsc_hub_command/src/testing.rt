//! The test of the settings of a hub.
ghost use Rattle.std.specs.Prelude.{◌≡◌, ◌≤◌, ◌⊎◌, ℕ};
ghost use Rattle.bsc_edge.specs.Asked.{GaveFile, ReadsOnce};
ghost use Rattle.bsc_outside.specs.Faults.{HasRisen};
ghost use Rattle.bsc_player.specs.Faults.{RisesIf};
ghost use Rattle.bsc_player.specs.LastLines.{SaysOrRunsOut};
ghost use Rattle.bsc_session.specs.Jobs.{policy_of};
ghost use Rattle.bsc_settings_told.specs.Told.{hub_told};
ghost use Rattle.bsc_hub_command.specs.Settled.{IsSettled};
ghost use Rattle.bsc_hub_command.specs.Tested.{TestsHub};

use crate::command::{load_text, settle};
use crate::settled::HubSettled;
use bsc_edge::Files;
use bsc_outside::Sink;
use bsc_player::{end_with, out_of_memory};
use bsc_settings_told::tell_hub;
use std::alloc::Global;

/// Writes the settings that a text says.
fn tell<K: Sink>(alloc: Global, text: &[u8], sink: &mut K, settled: &HubSettled) -> u8
    ensures says { IsSettled (λ o. o ≡ text.now) settled.now.hub (policy_of settled.now.policy)
        → SaysOrRunsOut result 0 (K.held sink.old) (K.held sink.new) (hub_told settled.now.hub (policy_of settled.now.policy)) }
    ensures failed { (result ≡ 0) ⊎ (result ≡ 7)
        ⊎ ((result ≡ 4) × HasRisen (K.faults sink.old) (K.faults sink.new)) }
    ensures later { K.faults sink.old ≤ K.faults sink.new }
{
    match tell_hub(alloc, &settled.hub, text) {
        Ok(told) => end_with(sink, told.as_slice(), 0),
        Err(_) => out_of_memory(sink),
    }
}

/// Tries the settings that a text says.
fn test_text<K: Sink>(alloc: Global, text: &[u8], sink: &mut K) -> u8
    ensures tested { (f f' : ℕ) → TestsHub (λ o. o ≡ text.now) f f' result (K.held sink.old) (K.held sink.new) }
    ensures write { RisesIf result 4 (K.faults sink.old) (K.faults sink.new) }
    ensures statuses { (result ≡ 0) ⊎ (result ≡ 4) ⊎ (result ≡ 5) ⊎ (result ≡ 7) }
    ensures later { K.faults sink.old ≤ K.faults sink.new }
{
    match settle(alloc, text, sink) {
        Ok(settled) => tell(alloc, text, sink, &settled),
        Err(status) => status,
    }
}

/// Tries the settings of a hub: reads them, and writes each with its value and whether that is the default. No hub is made, and
/// nothing else is touched.
///
/// | status | cause | last line written |
/// |---|---|---|
/// | 0 | the settings are good, and are written | none of its own |
/// | 3 | the file couldn't be read | `fault read` |
/// | 4 | a write failed | none |
/// | 5 | the settings are refused for this key | `fault settings KEY` |
/// | 7 | memory ran out | `fault memory`, tried once |
pub fn test_hub<K: Sink, F: Files>(alloc: Global, path: &str, files: &mut F, sink: &mut K) -> u8
    // The file of settings was read, and no other.
    ensures once { ReadsOnce (F.loads files.old) (F.loads files.new) path.now }

    // Its settings are written; or, as where a hub is served, they weren't read, they were refused, or memory ran out.
    ensures tested { TestsHub (GaveFile F.holds F.loads files.old files.new path.now) (F.faults files.old) (F.faults files.new) result
        (K.held sink.old) (K.held sink.new) }
    ensures read { RisesIf result 3 (F.faults files.old) (F.faults files.new) }
    ensures write { RisesIf result 4 (K.faults sink.old) (K.faults sink.new) }
    ensures statuses { (result ≡ 0) ⊎ (result ≡ 3) ⊎ (result ≡ 4) ⊎ (result ≡ 5) ⊎ (result ≡ 7) }
{
    match load_text(alloc, path, files, sink) {
        Ok(text) => test_text(alloc, text.as_slice(), sink),
        Err(status) => status,
    }
}
