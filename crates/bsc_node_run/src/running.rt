//! A whole run of a node.
ghost use Rattle.std.specs.Prelude.{◌≡◌, ◌≤◌, IfOk, OnErr};
ghost use Rattle.bsc_edge.specs.Told.{Stays};
ghost use Rattle.bsc_node_run.specs.Halts.{RisesOnAcceptFault, RisesOnWriteFault};
ghost use Rattle.bsc_node_run.specs.Drawing.{Draws, GoesDrawing, at_rest};
ghost use Rattle.bsc_node_run.specs.Moments.{outside, run_moment};
ghost use Rattle.bsc_node_run.specs.Resting.{HasRested, rest_after, until_next};
ghost use Rattle.bsc_node_run.specs.Running.{RunsTo};
ghost use Rattle.bsc_node_run.specs.Stopping.{RunBreaks};
ghost use Rattle.bsc_node_run.specs.Worlds.{admitting, dialling};

use crate::bounds::LONGEST_REST_MS;
use crate::due::Due;
use crate::halt::Halt;
use crate::link_set::LinkSet;
use crate::node_core::Core;
use crate::parts::NodeParts;
use crate::run_end::RunEnd;
use crate::run_terms::RunTerms;
use crate::turn_start::TurnStart;
use crate::turning::{node_turn, passed_by};
use crate::words::Words;
use bsc_edge::{Acceptor, Clock, Dialer, Link, Waiter};
use bsc_outside::Sink;
use std::alloc::Global;

/// How long it is until the time of the next line, once so much time has passed, and no longer than a wait may be.
fn until_next(left: &[Due], passed: u64) -> u32
    ensures { result ≡ until_next passed left.now }
{
    match left {
        [due, ..] => {
            let until = due.at.saturating_sub(passed);
            if until < LONGEST_REST_MS as u64 {
                until as u32
            } else {
                LONGEST_REST_MS
            }
        }
        [] => LONGEST_REST_MS,
    }
}

/// How long is waited before the next turn, once so much time had passed at the last one: not at all where something is new of a
/// link, and else until the time of the next line.
#[tactic(auto, using(crate::proofs::Resting::rest_told, crate::proofs::Resting::rest_untold))]
fn rest_ms<L>(set: &LinkSet<L>, left: &[Due], passed: u64) -> u32
    ensures { result ≡ rest_after passed left.now set.now.waiting.items }
{
    if set.waiting.is_empty() {
        until_next(left, passed)
    } else {
        0
    }
}

/// Runs a node: makes turns until the node tells that it has ended, up to this number of them, and waits before each. The times
/// of the turns don't fall.
#[tactic(auto, using(bsc_edge::proofs::Common::stays_then))]
pub fn run_core<
    N: Core,
    K: Sink,
    C: Clock,
    V: Waiter,
    W: Words,
    L: Link + Drop,
    A: Acceptor<L>,
    D: Dialer<L>,
>(
    alloc: Global,
    node: &mut N,
    terms: RunTerms<'_>,
    sink: &mut K,
    clock: &mut C,
    acceptor: &mut A,
    parts: &mut NodeParts<V, W, D>,
) -> Result<RunEnd, Halt>
    ensures runs { IfOk result (λ end. RunsTo (GoesDrawing N.goes (Draws W.gives W.faults)) L.talk terms.entry
        (run_moment (at_rest node.old parts.old.random) (dialling D.calls D.left D.came D.faults parts.old.dialer)
        (K.held sink.old) (admitting A.left A.came A.waits acceptor.old) (C.readings clock.old))
        (run_moment (at_rest node.new parts.new.random) (dialling D.calls D.left D.came D.faults parts.new.dialer)
        (K.held sink.new) (admitting A.left A.came A.waits acceptor.new) (C.readings clock.new)) end) }

    // Where it ends by a fault, what was done is as in a run up to there, and one action more in part.
    ensures fails { OnErr result (RunBreaks (GoesDrawing N.goes (Draws W.gives W.faults)) L.talk terms.entry
        (run_moment (at_rest node.old parts.old.random) (dialling D.calls D.left D.came D.faults parts.old.dialer)
        (K.held sink.old) (admitting A.left A.came A.waits acceptor.old) (C.readings clock.old))
        (outside (dialling D.calls D.left D.came D.faults parts.new.dialer) (K.held sink.new) (admitting A.left A.came A.waits acceptor.new)
        (C.readings clock.new))) }

    // Whatever ends it, there was one wait before each turn: of no time before the first, and before one to which something new of
    // a link was left; and else of 50 ms, or of what was left, at the turn before, until the next line of the script, where that is
    // less.
    ensures rests { HasRested (GoesDrawing N.goes (Draws W.gives W.faults)) L.talk terms.entry.listens terms.entry.script.now
        (run_moment (at_rest node.old parts.old.random) (dialling D.calls D.left D.came D.faults parts.old.dialer)
        (K.held sink.old) (admitting A.left A.came A.waits acceptor.old) (C.readings clock.old))
        (C.readings clock.new) (V.waits parts.old.waiter) (V.waits parts.new.waiter) }
    ensures write { RisesOnWriteFault result (K.faults sink.old) (K.faults sink.new) }
    ensures accept { RisesOnAcceptFault result (A.faults acceptor.old) (A.faults acceptor.new) }
    ensures writes_later { K.faults sink.old ≤ K.faults sink.new }
    ensures links_later { A.faults acceptor.old ≤ A.faults acceptor.new }

    // The acceptor stays bound to the port that it was bound to.
    ensures bound { Stays (A.bound acceptor.old) (A.bound acceptor.new) }
{
    let RunTerms {
        script,
        listens,
        turns,
    } = terms;
    let mut set = LinkSet::make(alloc)?;
    let mut start = None;
    let mut left = script;
    let mut wait_ms = 0;
    for made in 0..turns {
        parts.waiter.wait(wait_ms);
        let from = TurnStart {
            alloc,
            script: left,
            start,
            listens,
        };
        let turn = node_turn(from, node, &mut set, sink, clock, acceptor, parts)?;
        if set.finished {
            return Ok(RunEnd::Finished);
        }
        start = Some(start.unwrap_or(turn.time));
        left = turn.left;
        wait_ms = rest_ms(&set, left, passed_by(start, turn.time));
    }
    Ok(RunEnd::Spent)
}
