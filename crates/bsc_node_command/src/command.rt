//! The command over files of settings and of the script.
ghost use Rattle.std.specs.Prelude.{◌≡◌, ◌≤◌, ◌⊎◌, ◌∷◌, [], map, Ok, Err, IfErr, IfOk, List, ℕ};
ghost use Rattle.bsc_edge.specs.declared.fault.FileFault.{FileFault};
ghost use Rattle.bsc_edge.specs.Asked.{GaveFile, ReadsFirstOf, ReadsOnce};
ghost use Rattle.bsc_outside.specs.Faults.{HasRisen};
ghost use Rattle.bsc_player.specs.Faults.{RisesIf};
ghost use Rattle.bsc_player.specs.LastLines.{SaysOrRunsOut};
ghost use Rattle.bsc_node_run.specs.declared.due.Due.{Due};
ghost use Rattle.bsc_node_run.specs.Drawing.{Draws};
ghost use Rattle.bsc_node_run.specs.Scripts.{script_of, wish_of};
ghost use Rattle.bsc_node_run.specs.Worlds.{dialling};
ghost use Rattle.bsc_node_laws.specs.Courses.{FinishCame};
ghost use Rattle.bsc_node_command.specs.Lines.{settings_line};
ghost use Rattle.bsc_node_command.specs.Settled.{IsSettled, Unread, Unsettled};
ghost use Rattle.bsc_node_command.specs.Comes.{RunsFiles, RunsScript, acceptor_world, node_world};

use crate::node_context::NodeContext;
use crate::playing::run_node;
use crate::texts::settings_text;
use crate::words::NodeWords;
use bsc_edge::{Acceptor, Clock, Dialer, FileFault, Files, Link, Waiter};
use bsc_node_run::{NodeParts, Words};
use bsc_octets::Octets;
use bsc_outside::Sink;
use bsc_player::{end_with, out_of_memory};
use bsc_settings::{NodeSettings, SettingFault, Settings, read_settings};
use std::alloc::Global;

/// Ends a run whose settings are refused.
fn refuse<K: Sink>(alloc: Global, sink: &mut K, name: &str) -> u8
    ensures says { SaysOrRunsOut result 5 (K.held sink.old) (K.held sink.new) (settings_line name.now) }
    ensures failed { (result ≡ 5) ⊎ (result ≡ 7)
        ⊎ ((result ≡ 4) × HasRisen (K.faults sink.old) (K.faults sink.new)) }
    ensures later { K.faults sink.old ≤ K.faults sink.new }
{
    match settings_text(alloc, name) {
        Ok(text) => end_with(sink, text.as_slice(), 5),
        Err(_) => out_of_memory(sink),
    }
}

/// The octets of the file at a path, which is read once, and no other.
fn read_file<F: Files>(alloc: Global, files: &mut F, path: &str) -> Result<Octets, FileFault>
    ensures gave { IfOk result (λ o. GaveFile F.holds F.loads files.old files.new path.now o) }
    ensures once { ReadsOnce (F.loads files.old) (F.loads files.new) path.now }
    ensures stays { (other o : List ℕ) → F.holds files.new other o → F.holds files.old other o }
    ensures later { F.faults files.old ≤ F.faults files.new }
    ensures failed { result ≡ Err FileFault.Failed → HasRisen (F.faults files.old) (F.faults files.new) }
{
    files.load(alloc, path)
}

/// The octets of a file, or the status of a run that ends without them.
pub(crate) fn load<K: Sink, F: Files>(
    alloc: Global,
    path: &str,
    files: &mut F,
    sink: &mut K,
) -> Result<Octets, u8>
    ensures given { IfOk result (λ o. GaveFile F.holds F.loads files.old files.new path.now o × (K.held sink.new ≡ K.held sink.old)) }
    ensures once { ReadsOnce (F.loads files.old) (F.loads files.new) path.now }
    ensures unread { IfErr result (λ s. Unread (F.faults files.old) (F.faults files.new) s (K.held sink.old) (K.held sink.new)) }
    ensures read { IfErr result (λ s. RisesIf s 3 (F.faults files.old) (F.faults files.new)) }
    ensures write { IfErr result (λ s. RisesIf s 4 (K.faults sink.old) (K.faults sink.new)) }
    ensures other { IfErr result (λ s. (s ≡ 3) ⊎ (s ≡ 4) ⊎ (s ≡ 7)) }
    ensures reads_later { F.faults files.old ≤ F.faults files.new }
    ensures writes_later { K.faults sink.old ≤ K.faults sink.new }
{
    match read_file(alloc, files, path) {
        Ok(text) => Ok(text),
        Err(FileFault::Failed) => Err(end_with(sink, b"fault read\n", 3)),
        Err(FileFault::NoMemory) => Err(out_of_memory(sink)),
    }
}

/// The settings of a node, or the status of a run that ends without them.
pub(crate) fn load_settings<K: Sink, F: Files>(
    alloc: Global,
    path: &str,
    files: &mut F,
    sink: &mut K,
) -> Result<NodeSettings, u8>
    ensures settled { IfOk result (λ v. IsSettled (GaveFile F.holds F.loads files.old files.new path.now) v × (K.held sink.new ≡ K.held sink.old)) }
    ensures once { ReadsOnce (F.loads files.old) (F.loads files.new) path.now }
    ensures stays { (other o : List ℕ) → F.holds files.new other o → F.holds files.old other o }
    ensures unsettled { IfErr result (λ s. Unsettled (GaveFile F.holds F.loads files.old files.new path.now) (F.faults files.old) (F.faults files.new) s
        (K.held sink.old) (K.held sink.new)) }
    ensures read { IfErr result (λ s. RisesIf s 3 (F.faults files.old) (F.faults files.new)) }
    ensures write { IfErr result (λ s. RisesIf s 4 (K.faults sink.old) (K.faults sink.new)) }
    ensures other { IfErr result (λ s. (s ≡ 3) ⊎ (s ≡ 4) ⊎ (s ≡ 5) ⊎ (s ≡ 7)) }
    ensures reads_later { F.faults files.old ≤ F.faults files.new }
    ensures writes_later { K.faults sink.old ≤ K.faults sink.new }
{
    let text = match read_file(alloc, files, path) {
        Ok(text) => text,
        Err(FileFault::Failed) => return Err(end_with(sink, b"fault read\n", 3)),
        Err(FileFault::NoMemory) => return Err(out_of_memory(sink)),
    };
    match read_settings(alloc, text.as_slice()) {
        Ok(settings) => {
            let Settings {
                hub: _hub,
                node,
                policy: _policy,
            } = settings;
            match node {
                Some(node) => Ok(node),
                None => Err(refuse(alloc, sink, "node")),
            }
        }
        Err(SettingFault::NotToml) => Err(refuse(alloc, sink, "-")),
        Err(SettingFault::Key { name }) => Err(refuse(alloc, sink, name.text())),
        Err(SettingFault::NoMemory) => Err(out_of_memory(sink)),
    }
}

/// Loads the script, and runs a node of these settings by it.
fn run_script<
    K: Sink,
    F: Files,
    C: Clock,
    V: Waiter,
    W: Words,
    L: Link + Drop,
    A: Acceptor<L>,
    D: Dialer<L>,
>(
    here: NodeContext<'_>,
    path: &str,
    sink: &mut K,
    files: &mut F,
    clock: &mut C,
    acceptor: &mut A,
    parts: &mut NodeParts<V, W, D>,
) -> u8
    ensures runs { RunsScript L.talk (Draws W.gives W.faults) here.entry.settings.now (GaveFile F.holds F.loads files.old files.new path.now)
        (record {
          unread = F.faults files.old;
          beside = node_world (dialling D.calls D.left D.came D.faults) V.waits parts.old
              (acceptor_world A.left A.came A.waits A.bound A.faults acceptor.old) (C.readings clock.old) (K.held sink.old);
        })
        (record {
          unread = F.faults files.new;
          beside = node_world (dialling D.calls D.left D.came D.faults) V.waits parts.new
              (acceptor_world A.left A.came A.waits A.bound A.faults acceptor.new) (C.readings clock.new) (K.held sink.new);
        }) result }
    ensures once { ReadsOnce (F.loads files.old) (F.loads files.new) path.now }
    ensures read { RisesIf result 3 (F.faults files.old) (F.faults files.new) }
    ensures write { RisesIf result 4 (K.faults sink.old) (K.faults sink.new) }
    ensures link { RisesIf result 6 (A.faults acceptor.old) (A.faults acceptor.new) }
    ensures statuses { (result ≡ 0) ⊎ (result ≡ 2) ⊎ (result ≡ 3) ⊎ (result ≡ 4) ⊎ (result ≡ 6) ⊎ (result ≡ 7) ⊎ (result ≡ 8) }
    ensures later { K.faults sink.old ≤ K.faults sink.new }
{
    match load(here.alloc, path, files, sink) {
        Ok(script) => run_node(
            here.alloc,
            here.settings,
            script.as_slice(),
            sink,
            clock,
            acceptor,
            parts,
        ),
        Err(status) => status,
    }
}

/// Runs the command `node`: loads its settings, then its script, and runs the node.
pub fn run_node_files<
    K: Sink,
    F: Files,
    C: Clock,
    V: Waiter,
    W: Words,
    L: Link + Drop,
    A: Acceptor<L>,
    D: Dialer<L>,
>(
    alloc: Global,
    words: NodeWords<'_>,
    sink: &mut K,
    files: &mut F,
    clock: &mut C,
    acceptor: &mut A,
    parts: &mut NodeParts<V, W, D>,
) -> u8
    // The file of settings was read, and then that of the script; but where the settings are refused, that of the settings alone.
    ensures loaded { ReadsFirstOf (F.loads files.old) (F.loads files.new) (words.entry.path.now ∷ words.entry.script.now ∷ []) }
    ensures refused { result ≡ 5 → ReadsOnce (F.loads files.old) (F.loads files.new) words.entry.path.now }

    // The file of settings wasn't read or was refused; or a node of them was run by the script, where that was read.
    ensures runs { RunsFiles L.talk (Draws W.gives W.faults)
        (record {
          settings = GaveFile F.holds F.loads files.old files.new words.entry.path.now;
          script = GaveFile F.holds F.loads files.old files.new words.entry.script.now;
        })
        (record {
          unread = F.faults files.old;
          beside = node_world (dialling D.calls D.left D.came D.faults) V.waits parts.old
              (acceptor_world A.left A.came A.waits A.bound A.faults acceptor.old) (C.readings clock.old) (K.held sink.old);
        })
        (record {
          unread = F.faults files.new;
          beside = node_world (dialling D.calls D.left D.came D.faults) V.waits parts.new
              (acceptor_world A.left A.came A.waits A.bound A.faults acceptor.new) (C.readings clock.new) (K.held sink.new);
        }) result }

    // Status 0 comes only once the time of the script's `finish` has passed, from the first reading of the clock to the last.
    ensures finished { result ≡ 0 → (script : List ℕ) × GaveFile F.holds F.loads files.old files.new words.entry.script.now script
        × (lines : List Due) × (script_of script ≡ Ok (map wish_of lines)) × FinishCame lines (C.readings clock.old) (C.readings clock.new) }
    ensures read { RisesIf result 3 (F.faults files.old) (F.faults files.new) }
    ensures write { RisesIf result 4 (K.faults sink.old) (K.faults sink.new) }
    ensures link { RisesIf result 6 (A.faults acceptor.old) (A.faults acceptor.new) }
    ensures statuses { (result ≡ 0) ⊎ (result ≡ 2) ⊎ (result ≡ 3) ⊎ (result ≡ 4) ⊎ (result ≡ 5) ⊎ (result ≡ 6) ⊎ (result ≡ 7)
        ⊎ (result ≡ 8) }
{
    match load_settings(alloc, words.path, files, sink) {
        Ok(settings) => {
            let here = NodeContext {
                alloc,
                settings: &settings,
            };
            run_script(here, words.script, sink, files, clock, acceptor, parts)
        }
        Err(status) => status,
    }
}
