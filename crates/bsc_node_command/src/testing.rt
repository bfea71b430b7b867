//! The test of the settings of a node and of its script.
ghost use Rattle.std.specs.Prelude.{◌≡◌, ◌≤◌, ◌⊎◌, ◌∷◌, [], ℕ};
ghost use Rattle.bsc_edge.specs.Asked.{GaveFile, ReadsFirstOf, ReadsOnce};
ghost use Rattle.bsc_outside.specs.Faults.{HasRisen};
ghost use Rattle.bsc_player.specs.Faults.{RisesIf};
ghost use Rattle.bsc_player.specs.LastLines.{SaysOrRunsOut};
ghost use Rattle.bsc_settings_told.specs.Told.{node_told};
ghost use Rattle.bsc_node_command.specs.Tested.{TestsNode, TestsScript, TestsText};

use crate::command::{load, load_settings};
use crate::node_context::NodeContext;
use crate::words::NodeWords;
use bsc_edge::Files;
use bsc_node_run::{ScriptFault, read_script};
use bsc_outside::Sink;
use bsc_player::{PlayEnd, end_play, end_with, out_of_memory};
use bsc_settings::NodeSettings;
use bsc_settings_told::tell_node;
use std::alloc::Global;

/// Writes settings that were read.
fn tell<K: Sink>(alloc: Global, sink: &mut K, settings: &NodeSettings) -> u8
    ensures says { SaysOrRunsOut result 0 (K.held sink.old) (K.held sink.new) (node_told settings.now) }
    ensures failed { (result ≡ 0) ⊎ (result ≡ 7)
        ⊎ ((result ≡ 4) × HasRisen (K.faults sink.old) (K.faults sink.new)) }
    ensures later { K.faults sink.old ≤ K.faults sink.new }
{
    match tell_node(alloc, settings) {
        Ok(text) => end_with(sink, text.as_slice(), 0),
        Err(_) => out_of_memory(sink),
    }
}

/// Reads the whole script, and writes the settings where it is good.
fn test_text<K: Sink>(here: NodeContext<'_>, script: &[u8], sink: &mut K) -> u8
    ensures tested { (f f' : ℕ) → TestsText here.entry.settings.now script.now (record { unread = f; written = K.held sink.old })
        (record { unread = f'; written = K.held sink.new }) result }
    ensures write { RisesIf result 4 (K.faults sink.old) (K.faults sink.new) }
    ensures statuses { (result ≡ 0) ⊎ (result ≡ 2) ⊎ (result ≡ 4) ⊎ (result ≡ 7) }
    ensures later { K.faults sink.old ≤ K.faults sink.new }
{
    match read_script(here.alloc, script) {
        Ok(_script) => tell(here.alloc, sink, here.settings),
        Err(ScriptFault::BadLine { line }) => end_play(here.alloc, sink, PlayEnd::BadLine { line }),
        Err(ScriptFault::NoMemory) => out_of_memory(sink),
    }
}

/// Loads the script, and tries it.
fn test_script<K: Sink, F: Files>(
    here: NodeContext<'_>,
    path: &str,
    files: &mut F,
    sink: &mut K,
) -> u8
    ensures tested { TestsScript here.entry.settings.now (GaveFile F.holds F.loads files.old files.new path.now)
        (record { unread = F.faults files.old; written = K.held sink.old })
        (record { unread = F.faults files.new; written = K.held sink.new }) result }
    ensures once { ReadsOnce (F.loads files.old) (F.loads files.new) path.now }
    ensures read { RisesIf result 3 (F.faults files.old) (F.faults files.new) }
    ensures write { RisesIf result 4 (K.faults sink.old) (K.faults sink.new) }
    ensures statuses { (result ≡ 0) ⊎ (result ≡ 2) ⊎ (result ≡ 3) ⊎ (result ≡ 4) ⊎ (result ≡ 7) }
    ensures later { K.faults sink.old ≤ K.faults sink.new }
{
    match load(here.alloc, path, files, sink) {
        Ok(script) => test_text(here, script.as_slice(), sink),
        Err(status) => status,
    }
}

/// Tries the settings of a node and its script: reads both, and writes each setting with its value and whether that is the default.
/// No node is made, and nothing else is touched.
///
/// | status | cause | last line written |
/// |---|---|---|
/// | 0 | settings and script are good, and the settings are written | none of its own |
/// | 2 | line n of the script is refused | `fault script line n` |
/// | 3 | a file couldn't be read | `fault read` |
/// | 4 | a write failed | none |
/// | 5 | the settings are refused for this key | `fault settings KEY` |
/// | 7 | memory ran out | `fault memory`, tried once |
pub fn test_node<K: Sink, F: Files>(
    alloc: Global,
    words: NodeWords<'_>,
    files: &mut F,
    sink: &mut K,
) -> u8
    // The file of settings was read, and then that of the script; but where the settings are refused, that of the settings alone.
    ensures loaded { ReadsFirstOf (F.loads files.old) (F.loads files.new) (words.entry.path.now ∷ words.entry.script.now ∷ []) }

    // The settings are written; or, as where a node is run, a file wasn't read, settings or script were refused, or memory ran out.
    ensures tested { TestsNode
        (record {
          settings = GaveFile F.holds F.loads files.old files.new words.entry.path.now;
          script = GaveFile F.holds F.loads files.old files.new words.entry.script.now;
        })
        (record { unread = F.faults files.old; written = K.held sink.old })
        (record { unread = F.faults files.new; written = K.held sink.new }) result }
    ensures read { RisesIf result 3 (F.faults files.old) (F.faults files.new) }
    ensures write { RisesIf result 4 (K.faults sink.old) (K.faults sink.new) }
    ensures statuses { (result ≡ 0) ⊎ (result ≡ 2) ⊎ (result ≡ 3) ⊎ (result ≡ 4) ⊎ (result ≡ 5) ⊎ (result ≡ 7) }
{
    match load_settings(alloc, words.path, files, sink) {
        Ok(settings) => {
            let here = NodeContext {
                alloc,
                settings: &settings,
            };
            test_script(here, words.script, files, sink)
        }
        Err(status) => status,
    }
}
