//! Running a node by its settings and by lines as they come.
ghost use Rattle.std.specs.Prelude.{◌≡◌, ◌≤◌, ◌⊎◌, [], length, false, true, Err, ℕ, List, Option};
ghost use Rattle.bsc_outside.specs.Faults.{HasRisen};
ghost use Rattle.bsc_player.specs.Faults.{RisesIf};
ghost use Rattle.bsc_edge.specs.Told.{Grows};
ghost use Rattle.bsc_node_core.specs.Node.{NodeStands};
ghost use Rattle.bsc_node_run.specs.declared.halt.Halt.{Halt as HaltType};
ghost use Rattle.bsc_node_run.specs.Drawing.{Draws};
ghost use Rattle.bsc_node_run.specs.Worlds.{Admitting, admitting, dialling};
ghost use Rattle.bsc_live_lines.specs.Ending.{EndWasTaken};
ghost use Rattle.bsc_node_command.specs.Comes.{IsBoundBy, IsUnasked, acceptor_world, made_by, node_world};
ghost use Rattle.bsc_node_command.specs.Lives.{LiveComes, NodeLived, SaysLiveEnd, lines_world, live_world};

use crate::making::make_node;
use crate::node_context::NodeContext;
use crate::playing::{bind, tell_end};
use crate::running_node::RunningNode;
use bsc_application::{LiveTerms, run_application};
use bsc_edge::{Acceptor, Clock, Dialer, Link, Waiter};
use bsc_input::LiveInput;
use bsc_live_lines::{LiveLines, Refusals};
use bsc_node_run::{Halt, NodeParts, RunEnd, Words};
use bsc_outside::Sink;
use bsc_player::{end_with, out_of_memory};
use bsc_settings::{NodeSettings, settings_are_of_nodes};
use std::alloc::Global;

/// Writes what the end of a run comes to, and gives its status. Where the node has ended and its input had failed, a read failed.
fn tell_live_end<K: Sink>(sink: &mut K, end: Result<RunEnd, Halt>, failed: bool) -> u8
    ensures says { SaysLiveEnd end failed result (K.held sink.old) (K.held sink.new) }
    ensures read { result ≡ 3 → failed ≡ true }
    ensures write { result ≡ 4 → (end ≡ Err HaltType.WriteFault) ⊎ HasRisen (K.faults sink.old) (K.faults sink.new) }
    ensures link { result ≡ 6 → end ≡ Err HaltType.AcceptFault }
    ensures statuses { (result ≡ 0) ⊎ (result ≡ 3) ⊎ (result ≡ 4) ⊎ (result ≡ 6) ⊎ (result ≡ 7) ⊎ (result ≡ 8) }
    ensures later { K.faults sink.old ≤ K.faults sink.new }
{
    match end {
        Ok(RunEnd::Finished) => {
            if failed {
                end_with(sink, b"fault read\n", 3)
            } else {
                0
            }
        }
        Ok(RunEnd::Spent) => tell_end(sink, Ok(RunEnd::Spent)),
        Err(halt) => tell_end(sink, Err(halt)),
    }
}

/// Whether the end of the lines' input was none.
fn input_failed<I: LiveInput + Drop, T: Refusals + Drop>(lines: &LiveLines<I, T>) -> bool
    ensures { result ≡ I.failed lines.now.lines.inbox }
{
    lines.inbox().has_failed()
}

/// Runs a node that was made, asked by lines, and writes what it comes to.
fn live_made<
    K: Sink,
    C: Clock,
    V: Waiter,
    W: Words,
    L: Link + Drop,
    A: Acceptor<L>,
    D: Dialer<L>,
    I: LiveInput + Drop,
    T: Refusals + Drop,
>(
    here: NodeContext<'_>,
    node: RunningNode,
    sink: &mut K,
    clock: &mut C,
    acceptor: &mut A,
    parts: &mut NodeParts<V, W, D>,
    lines: &mut LiveLines<I, T>,
) -> u8
    requires { NodeStands node.node (made_by here.settings.now) [] }
    ensures ran { (door : Admitting L) (port : Option (Option ℕ)) (faults : ℕ) →
        IsUnasked door (admitting A.left A.came A.waits acceptor.old) →
        IsBoundBy here.entry.settings.now.direct_port port (A.bound acceptor.old) →
        NodeLived L.talk (Draws W.gives W.faults) here.entry.settings.now
        (live_world (node_world (dialling D.calls D.left D.came D.faults) V.waits parts.old
        (record { door = door; port = port; faults = faults }) (C.readings clock.old) (K.held sink.old))
        (lines_world (I.taken lines.old.lines.inbox) lines.old.answers.items (T.told lines.old.lines.reading.teller) (I.failed lines.old.lines.inbox)))
        (live_world (node_world (dialling D.calls D.left D.came D.faults) V.waits parts.new
        (acceptor_world A.left A.came A.waits A.bound A.faults acceptor.new) (C.readings clock.new) (K.held sink.new))
        (lines_world (I.taken lines.new.lines.inbox) lines.new.answers.items (T.told lines.new.lines.reading.teller) (I.failed lines.new.lines.inbox))) result }
    ensures read { result ≡ 3 → I.failed lines.new.lines.inbox ≡ true }
    ensures write { RisesIf result 4 (K.faults sink.old) (K.faults sink.new) }
    ensures link { RisesIf result 6 (A.faults acceptor.old) (A.faults acceptor.new) }
    ensures statuses { (result ≡ 0) ⊎ (result ≡ 3) ⊎ (result ≡ 4) ⊎ (result ≡ 6) ⊎ (result ≡ 7) ⊎ (result ≡ 8) }
    ensures writes_later { K.faults sink.old ≤ K.faults sink.new }
    ensures links_later { A.faults acceptor.old ≤ A.faults acceptor.new }
{
    settings_are_of_nodes(here.settings);
    let mut node = node;
    let listens = here.settings.direct_port.is_some();
    let terms = LiveTerms {
        listens,
        turns: here.settings.turns,
    };
    let end = run_application(
        here.alloc, &mut node, terms, sink, clock, acceptor, parts, lines,
    );
    let failed = input_failed(lines);
    tell_live_end(sink, end, failed)
}

/// Binds the port of direct connections where the settings have one, makes a node of them, runs it by the lines that come, and writes
/// what that comes to. Answers the status. The lines are those of a script without their times; each is acted on in the first turn after
/// it was taken of the inbox. The end of the input asks the node to end, as `finish` does.
///
/// | status | cause | last line written |
/// |---|---|---|
/// | 0 | the node has ended, as a line or the end of the input asked | `finished`, its own |
/// | 3 | the node has ended, but the input ended since it couldn't be read any further | `fault read` |
/// | 4 | a write failed | none |
/// | 6 | the port can't be bound, or the acceptor failed | `fault link` |
/// | 7 | memory ran out | `fault memory`, tried once |
/// | 8 | the node made as many turns as its settings allow | `fault turns` |
pub fn run_live<
    K: Sink,
    C: Clock,
    V: Waiter,
    W: Words,
    L: Link + Drop,
    A: Acceptor<L>,
    D: Dialer<L>,
    I: LiveInput + Drop,
    T: Refusals + Drop,
>(
    alloc: Global,
    settings: &NodeSettings,
    sink: &mut K,
    clock: &mut C,
    acceptor: &mut A,
    parts: &mut NodeParts<V, W, D>,
    lines: &mut LiveLines<I, T>,
) -> u8
    // Either no node was run, and no line was taken; or a node of the settings was, to its end or to a fault, by the lines that were taken.
    ensures comes { LiveComes L.talk (Draws W.gives W.faults) settings.now
        (live_world (node_world (dialling D.calls D.left D.came D.faults) V.waits parts.old
        (acceptor_world A.left A.came A.waits A.bound A.faults acceptor.old) (C.readings clock.old) (K.held sink.old))
        (lines_world (I.taken lines.old.lines.inbox) lines.old.answers.items (T.told lines.old.lines.reading.teller) (I.failed lines.old.lines.inbox)))
        (live_world (node_world (dialling D.calls D.left D.came D.faults) V.waits parts.new
        (acceptor_world A.left A.came A.waits A.bound A.faults acceptor.new) (C.readings clock.new) (K.held sink.new))
        (lines_world (I.taken lines.new.lines.inbox) lines.new.answers.items (T.told lines.new.lines.reading.teller) (I.failed lines.new.lines.inbox))) result }

    // Status 0 comes only where a line that asks the node to end was taken, or the end of an input that was read to it.
    ensures finished { result ≡ 0 → EndWasTaken (I.taken lines.new.lines.inbox) × (I.failed lines.new.lines.inbox ≡ false) }

    // Status 8 comes only where the clock was read as often as the settings allow turns.
    ensures spent { result ≡ 8 → (times : List ℕ) × Grows (C.readings clock.old) (C.readings clock.new) times × (length times ≡ settings.now.turns) }

    // Status 3 comes only where the input had failed.
    ensures read { result ≡ 3 → I.failed lines.new.lines.inbox ≡ true }
    ensures write { RisesIf result 4 (K.faults sink.old) (K.faults sink.new) }
    ensures link { RisesIf result 6 (A.faults acceptor.old) (A.faults acceptor.new) }
    ensures statuses { (result ≡ 0) ⊎ (result ≡ 3) ⊎ (result ≡ 4) ⊎ (result ≡ 6) ⊎ (result ≡ 7) ⊎ (result ≡ 8) }
    ensures writes_later { K.faults sink.old ≤ K.faults sink.new }
    ensures links_later { A.faults acceptor.old ≤ A.faults acceptor.new }
{
    match bind(settings, acceptor) {
        Ok(()) => match make_node(alloc, settings) {
            Ok(node) => {
                let here = NodeContext { alloc, settings };
                live_made(here, node, sink, clock, acceptor, parts, lines)
            }
            Err(_) => out_of_memory(sink),
        },
        Err(_) => end_with(sink, b"fault link\n", 6),
    }
}
