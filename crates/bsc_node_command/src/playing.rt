//! Running a node by its settings and a script.
ghost use Rattle.std.specs.Prelude.{◌≡◌, ◌≤◌, ◌⊎◌, [], length, map, Ok, Err, IfOk, IsErr, ℕ, List, Option};
ghost use Rattle.bsc_outside.specs.Faults.{HasRisen};
ghost use Rattle.bsc_player.specs.Faults.{RisesIf};
ghost use Rattle.bsc_edge.specs.Told.{Grows, Stays};
ghost use Rattle.bsc_node_core.specs.Node.{NodeStands};
ghost use Rattle.bsc_node_run.specs.declared.halt.Halt.{Halt as HaltType};
ghost use Rattle.bsc_node_command.specs.Lines.{SaysEnd};
ghost use Rattle.bsc_node_run.specs.declared.due.Due.{Due};
ghost use Rattle.bsc_node_run.specs.Drawing.{Draws};
ghost use Rattle.bsc_node_run.specs.Scripts.{script_of, wish_of};
ghost use Rattle.bsc_node_run.specs.Worlds.{Admitting, admitting, dialling};
ghost use Rattle.bsc_node_laws.specs.Courses.{FinishCame};
ghost use Rattle.bsc_node_command.specs.Comes.{Comes, IsBoundBy, IsUnasked, NodeRan, acceptor_world, made_by, node_world};

use crate::making::make_node;
use crate::node_context::NodeContext;
use crate::running_node::RunningNode;
use bsc_edge::{Acceptor, Clock, Dialer, Failed, Link, Waiter};
use bsc_node_run::{Due, Halt, NodeParts, RunEnd, RunTerms, ScriptFault, Words, read_script};
use bsc_outside::Sink;
use bsc_player::{PlayEnd, end_play, end_with, out_of_memory};
use bsc_settings::{NodeSettings, settings_are_of_nodes};
use std::alloc::Global;

/// Writes what the end of a run comes to, and gives its status.
pub(crate) fn tell_end<K: Sink>(sink: &mut K, end: Result<RunEnd, Halt>) -> u8
    ensures says { SaysEnd end result (K.held sink.old) (K.held sink.new) }
    ensures write { result ≡ 4 → (end ≡ Err HaltType.WriteFault) ⊎ HasRisen (K.faults sink.old) (K.faults sink.new) }
    ensures link { result ≡ 6 → end ≡ Err HaltType.AcceptFault }
    ensures statuses { (result ≡ 0) ⊎ (result ≡ 4) ⊎ (result ≡ 6) ⊎ (result ≡ 7) ⊎ (result ≡ 8) }
    ensures later { K.faults sink.old ≤ K.faults sink.new }
{
    match end {
        Ok(RunEnd::Finished) => 0,
        Ok(RunEnd::Spent) => end_with(sink, b"fault turns\n", 8),
        Err(Halt::WriteFault) => 4,
        Err(Halt::AcceptFault) => end_with(sink, b"fault link\n", 6),
        Err(Halt::NoMemory) => out_of_memory(sink),
    }
}

/// Binds the port of direct connections, where the settings have one.
#[tactic(auto, using(bsc_edge::proofs::Common::stays_same))]
pub(crate) fn bind<L, A: Acceptor<L>>(
    settings: &NodeSettings,
    acceptor: &mut A,
) -> Result<(), Failed>
    ensures bound { IfOk result (λ _. IsBoundBy settings.now.direct_port (A.bound acceptor.old) (A.bound acceptor.new)) }
    ensures left { Stays (A.left acceptor.old) (A.left acceptor.new) }
    ensures came { Stays (A.came acceptor.old) (A.came acceptor.new) }
    ensures waits { Stays (A.waits acceptor.old) (A.waits acceptor.new) }
    ensures failed { IsErr result → HasRisen (A.faults acceptor.old) (A.faults acceptor.new) }
    ensures later { A.faults acceptor.old ≤ A.faults acceptor.new }
{
    match settings.direct_port {
        Some(port) => acceptor.bind(port, settings.vmac),
        None => Ok(()),
    }
}

/// Runs a node that was made, and writes what it comes to.
fn run_made<K: Sink, C: Clock, V: Waiter, W: Words, L: Link + Drop, A: Acceptor<L>, D: Dialer<L>>(
    here: NodeContext<'_>,
    node: RunningNode,
    lines: &[Due],
    sink: &mut K,
    clock: &mut C,
    acceptor: &mut A,
    parts: &mut NodeParts<V, W, D>,
) -> u8
    requires { NodeStands node.node (made_by here.settings.now) [] }
    ensures ran { (script : List ℕ) (door : Admitting L) (port : Option (Option ℕ)) (faults : ℕ) →
        script_of script ≡ Ok (map wish_of lines.now) → IsUnasked door (admitting A.left A.came A.waits acceptor.old) →
        IsBoundBy here.entry.settings.now.direct_port port (A.bound acceptor.old) →
        NodeRan L.talk (Draws W.gives W.faults) (record { settings = here.entry.settings.now; script = script })
        (node_world (dialling D.calls D.left D.came D.faults) V.waits parts.old
        (record { door = door; port = port; faults = faults }) (C.readings clock.old) (K.held sink.old))
        (node_world (dialling D.calls D.left D.came D.faults) V.waits parts.new
        (acceptor_world A.left A.came A.waits A.bound A.faults acceptor.new) (C.readings clock.new) (K.held sink.new)) result }
    ensures write { RisesIf result 4 (K.faults sink.old) (K.faults sink.new) }
    ensures link { RisesIf result 6 (A.faults acceptor.old) (A.faults acceptor.new) }
    ensures statuses { (result ≡ 0) ⊎ (result ≡ 4) ⊎ (result ≡ 6) ⊎ (result ≡ 7) ⊎ (result ≡ 8) }
    ensures writes_later { K.faults sink.old ≤ K.faults sink.new }
    ensures links_later { A.faults acceptor.old ≤ A.faults acceptor.new }
{
    settings_are_of_nodes(here.settings);
    let mut node = node;
    let listens = here.settings.direct_port.is_some();
    let terms = RunTerms {
        script: lines,
        listens,
        turns: here.settings.turns,
    };
    let end = bsc_node_run::run_core(here.alloc, &mut node, terms, sink, clock, acceptor, parts);
    tell_end(sink, end)
}

/// Binds its port, where it has one, makes the node, and runs it.
fn run_lines<K: Sink, C: Clock, V: Waiter, W: Words, L: Link + Drop, A: Acceptor<L>, D: Dialer<L>>(
    here: NodeContext<'_>,
    lines: &[Due],
    sink: &mut K,
    clock: &mut C,
    acceptor: &mut A,
    parts: &mut NodeParts<V, W, D>,
) -> u8
    ensures comes { (script : List ℕ) → script_of script ≡ Ok (map wish_of lines.now) →
        Comes L.talk (Draws W.gives W.faults) (record { settings = here.entry.settings.now; script = script })
        (node_world (dialling D.calls D.left D.came D.faults) V.waits parts.old
        (acceptor_world A.left A.came A.waits A.bound A.faults acceptor.old) (C.readings clock.old) (K.held sink.old))
        (node_world (dialling D.calls D.left D.came D.faults) V.waits parts.new
        (acceptor_world A.left A.came A.waits A.bound A.faults acceptor.new) (C.readings clock.new) (K.held sink.new)) result }
    ensures write { RisesIf result 4 (K.faults sink.old) (K.faults sink.new) }
    ensures link { RisesIf result 6 (A.faults acceptor.old) (A.faults acceptor.new) }
    ensures statuses { (result ≡ 0) ⊎ (result ≡ 4) ⊎ (result ≡ 6) ⊎ (result ≡ 7) ⊎ (result ≡ 8) }
    ensures writes_later { K.faults sink.old ≤ K.faults sink.new }
    ensures links_later { A.faults acceptor.old ≤ A.faults acceptor.new }
{
    match bind(here.settings, acceptor) {
        Ok(()) => match make_node(here.alloc, here.settings) {
            Ok(node) => run_made(here, node, lines, sink, clock, acceptor, parts),
            Err(_) => out_of_memory(sink),
        },
        Err(_) => end_with(sink, b"fault link\n", 6),
    }
}

/// Reads the whole script, and runs a node of the settings by it.
fn run_text<K: Sink, C: Clock, V: Waiter, W: Words, L: Link + Drop, A: Acceptor<L>, D: Dialer<L>>(
    here: NodeContext<'_>,
    script: &[u8],
    sink: &mut K,
    clock: &mut C,
    acceptor: &mut A,
    parts: &mut NodeParts<V, W, D>,
) -> u8
    ensures comes { Comes L.talk (Draws W.gives W.faults) (record { settings = here.entry.settings.now; script = script.now })
        (node_world (dialling D.calls D.left D.came D.faults) V.waits parts.old
        (acceptor_world A.left A.came A.waits A.bound A.faults acceptor.old) (C.readings clock.old) (K.held sink.old))
        (node_world (dialling D.calls D.left D.came D.faults) V.waits parts.new
        (acceptor_world A.left A.came A.waits A.bound A.faults acceptor.new) (C.readings clock.new) (K.held sink.new)) result }
    ensures write { RisesIf result 4 (K.faults sink.old) (K.faults sink.new) }
    ensures link { RisesIf result 6 (A.faults acceptor.old) (A.faults acceptor.new) }
    ensures statuses { (result ≡ 0) ⊎ (result ≡ 2) ⊎ (result ≡ 4) ⊎ (result ≡ 6) ⊎ (result ≡ 7) ⊎ (result ≡ 8) }
    ensures writes_later { K.faults sink.old ≤ K.faults sink.new }
    ensures links_later { A.faults acceptor.old ≤ A.faults acceptor.new }
{
    match read_script(here.alloc, script) {
        Ok(script) => run_lines(here, script.as_slice(), sink, clock, acceptor, parts),
        Err(ScriptFault::BadLine { line }) => end_play(here.alloc, sink, PlayEnd::BadLine { line }),
        Err(ScriptFault::NoMemory) => out_of_memory(sink),
    }
}

/// Reads the whole script, binds the port of direct connections where the settings have one, runs a node of the settings,
/// and writes what that comes to. Answers the status.
///
/// | status | cause | last line written |
/// |---|---|---|
/// | 0 | the node has ended | `finished`, its own |
/// | 2 | line n of the script is refused | `fault script line n` |
/// | 4 | a write failed | none |
/// | 6 | the port can't be bound, or the acceptor failed | `fault link` |
/// | 7 | memory ran out | `fault memory`, tried once |
/// | 8 | the node made as many turns as its settings allow | `fault turns` |
pub fn run_node<
    K: Sink,
    C: Clock,
    V: Waiter,
    W: Words,
    L: Link + Drop,
    A: Acceptor<L>,
    D: Dialer<L>,
>(
    alloc: Global,
    settings: &NodeSettings,
    script: &[u8],
    sink: &mut K,
    clock: &mut C,
    acceptor: &mut A,
    parts: &mut NodeParts<V, W, D>,
) -> u8
    // Either no node was run, and nothing was dialled; or a node of the settings was, to its end or to a fault.
    ensures comes { Comes L.talk (Draws W.gives W.faults) (record { settings = settings.now; script = script.now })
        (node_world (dialling D.calls D.left D.came D.faults) V.waits parts.old
        (acceptor_world A.left A.came A.waits A.bound A.faults acceptor.old) (C.readings clock.old) (K.held sink.old))
        (node_world (dialling D.calls D.left D.came D.faults) V.waits parts.new
        (acceptor_world A.left A.came A.waits A.bound A.faults acceptor.new) (C.readings clock.new) (K.held sink.new)) result }

    // Status 2 comes only of a script with a bad line, and such a script comes to no other, but where the write of the last
    // line failed or memory ran out.
    ensures bad { result ≡ 2 → (n : ℕ) × (script_of script.now ≡ Err n) }
    ensures refuses { (n : ℕ) → script_of script.now ≡ Err n → (result ≡ 2) ⊎ (result ≡ 4) ⊎ (result ≡ 7) }

    // Status 0 comes only once the time of the script's `finish` has passed, from the first reading of the clock to the last.
    ensures finished { result ≡ 0 → (lines : List Due) × (script_of script.now ≡ Ok (map wish_of lines))
        × FinishCame lines (C.readings clock.old) (C.readings clock.new) }

    // Status 8 comes only where the clock was read as often as the settings allow turns.
    ensures spent { result ≡ 8 → (times : List ℕ) × Grows (C.readings clock.old) (C.readings clock.new) times × (length times ≡ settings.now.turns) }
    ensures write { RisesIf result 4 (K.faults sink.old) (K.faults sink.new) }
    ensures link { RisesIf result 6 (A.faults acceptor.old) (A.faults acceptor.new) }
    ensures statuses { (result ≡ 0) ⊎ (result ≡ 2) ⊎ (result ≡ 4) ⊎ (result ≡ 6) ⊎ (result ≡ 7) ⊎ (result ≡ 8) }
    ensures writes_later { K.faults sink.old ≤ K.faults sink.new }
    ensures links_later { A.faults acceptor.old ≤ A.faults acceptor.new }
{
    let here = NodeContext { alloc, settings };
    run_text(here, script, sink, clock, acceptor, parts)
}
