//! The command over a file of settings and lines as they come.
ghost use Rattle.std.specs.Prelude.{◌≡◌, ◌⊎◌, ◌∷◌, [], false, true};
ghost use Rattle.bsc_edge.specs.Asked.{GaveFile, ReadsOnce};
ghost use Rattle.bsc_outside.specs.Faults.{HasRisen};
ghost use Rattle.bsc_player.specs.Faults.{RisesIf};
ghost use Rattle.bsc_node_run.specs.Drawing.{Draws};
ghost use Rattle.bsc_node_run.specs.Worlds.{dialling};
ghost use Rattle.bsc_live_lines.specs.Ending.{EndWasTaken};
ghost use Rattle.bsc_node_command.specs.Comes.{acceptor_world, node_world};
ghost use Rattle.bsc_node_command.specs.Lives.{RunsLive, lines_world, live_world};

use crate::command::load_settings;
use crate::living::run_live;
use bsc_edge::{Acceptor, Clock, Dialer, Files, Link, Waiter};
use bsc_input::LiveInput;
use bsc_live_lines::{LiveLines, Refusals};
use bsc_node_run::{NodeParts, Words};
use bsc_outside::Sink;
use std::alloc::Global;

/// Loads the settings, and runs a node of them by the lines that come. No command of the program calls it yet.
pub fn run_live_file<
    K: Sink,
    F: Files,
    C: Clock,
    V: Waiter,
    W: Words,
    L: Link + Drop,
    A: Acceptor<L>,
    D: Dialer<L>,
    I: LiveInput + Drop,
    T: Refusals + Drop,
>(
    alloc: Global,
    path: &str,
    sink: &mut K,
    files: &mut F,
    clock: &mut C,
    acceptor: &mut A,
    parts: &mut NodeParts<V, W, D>,
    lines: &mut LiveLines<I, T>,
) -> u8
    // The file of settings was read, and no other.
    ensures loaded { ReadsOnce (F.loads files.old) (F.loads files.new) path.now }

    // The file of settings wasn't read or was refused, and no line was taken; or a node of them was run by the lines that were.
    ensures runs { RunsLive L.talk (Draws W.gives W.faults) (GaveFile F.holds F.loads files.old files.new path.now)
        (F.faults files.old) (F.faults files.new)
        (live_world (node_world (dialling D.calls D.left D.came D.faults) V.waits parts.old
        (acceptor_world A.left A.came A.waits A.bound A.faults acceptor.old) (C.readings clock.old) (K.held sink.old))
        (lines_world (I.taken lines.old.lines.inbox) lines.old.answers.items (T.told lines.old.lines.reading.teller) (I.failed lines.old.lines.inbox)))
        (live_world (node_world (dialling D.calls D.left D.came D.faults) V.waits parts.new
        (acceptor_world A.left A.came A.waits A.bound A.faults acceptor.new) (C.readings clock.new) (K.held sink.new))
        (lines_world (I.taken lines.new.lines.inbox) lines.new.answers.items (T.told lines.new.lines.reading.teller) (I.failed lines.new.lines.inbox))) result }

    // Status 0 comes only where a line that asks the node to end was taken, or the end of an input that was read to it.
    ensures finished { result ≡ 0 → EndWasTaken (I.taken lines.new.lines.inbox) × (I.failed lines.new.lines.inbox ≡ false) }

    // Status 3 comes only where the settings couldn't be read, or the input had failed.
    ensures read { result ≡ 3 → HasRisen (F.faults files.old) (F.faults files.new) ⊎ (I.failed lines.new.lines.inbox ≡ true) }
    ensures write { RisesIf result 4 (K.faults sink.old) (K.faults sink.new) }
    ensures link { RisesIf result 6 (A.faults acceptor.old) (A.faults acceptor.new) }
    ensures statuses { (result ≡ 0) ⊎ (result ≡ 3) ⊎ (result ≡ 4) ⊎ (result ≡ 5) ⊎ (result ≡ 6) ⊎ (result ≡ 7) ⊎ (result ≡ 8) }
{
    match load_settings(alloc, path, files, sink) {
        Ok(settings) => run_live(alloc, &settings, sink, clock, acceptor, parts, lines),
        Err(status) => status,
    }
}
