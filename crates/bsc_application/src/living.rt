//! A whole run of a node for an application.
ghost use Rattle.std.specs.Prelude.{◌≡◌, ◌≤◌, ◌||◌, if◌then◌else◌, IfOk, OnErr, ℕ};
ghost use Rattle.bsc_edge.specs.Told.{Stays};
ghost use Rattle.bsc_node_run.specs.Drawing.{Draws, GoesDrawing, at_rest};
ghost use Rattle.bsc_node_run.specs.Halts.{RisesOnAcceptFault, RisesOnWriteFault};
ghost use Rattle.bsc_node_run.specs.Moments.{outside, run_moment};
ghost use Rattle.bsc_node_run.specs.Resting.{longest_rest};
ghost use Rattle.bsc_node_run.specs.Worlds.{admitting, dialling};
ghost use Rattle.bsc_application.specs.Asking.{is_full};
ghost use Rattle.bsc_application.specs.Breaking.{LiveBreaks};
ghost use Rattle.bsc_application.specs.Living.{LivesTo};
ghost use Rattle.bsc_application.specs.Pausing.{HasPaused};

use crate::application::Application;
use crate::bounds::MOST_REQUESTS;
use crate::live_terms::LiveTerms;
use crate::taking::take_requests;
use bsc_edge::{Acceptor, Clock, Dialer, Link, Waiter};
use bsc_node_run::{
    Core, Due, Halt, LONGEST_REST_MS, LinkSet, NodeParts, RunEnd, TurnStart, Words, node_turn,
};
use bsc_outside::Sink;
use std::alloc::Global;

/// How long is waited before the next turn: not at all where more may be asked for or something new of a link is left to be told, and
/// else as long as a wait may be.
fn pause_ms(batch: &[Due], has_news: bool) -> u32
    ensures { result ≡ (if is_full batch.now || has_news then 0 else longest_rest) }
{
    if batch.len() as u64 >= MOST_REQUESTS || has_news {
        0
    } else {
        LONGEST_REST_MS
    }
}

/// Runs a node for an application: makes turns until the node tells that it has ended, up to this number of them. Before each it
/// waits, and takes what the application asks for by then; in it the node is told that. The times of the turns don't fall.
#[tactic(auto, using(bsc_edge::proofs::Common::stays_then))]
pub fn run_application<
    N: Core,
    K: Sink,
    C: Clock,
    V: Waiter,
    W: Words,
    L: Link + Drop,
    A: Acceptor<L>,
    D: Dialer<L>,
    P: Application,
>(
    alloc: Global,
    node: &mut N,
    terms: LiveTerms,
    sink: &mut K,
    clock: &mut C,
    acceptor: &mut A,
    parts: &mut NodeParts<V, W, D>,
    application: &mut P,
) -> Result<RunEnd, Halt>
    // Each request that the application gave was told to the node, in order, in the turn before which it was given.
    ensures runs { IfOk result (λ end. LivesTo (GoesDrawing N.goes (Draws W.gives W.faults)) L.talk terms
        (run_moment (at_rest node.old parts.old.random) (dialling D.calls D.left D.came D.faults parts.old.dialer)
        (K.held sink.old) (admitting A.left A.came A.waits acceptor.old) (C.readings clock.old))
        (run_moment (at_rest node.new parts.new.random) (dialling D.calls D.left D.came D.faults parts.new.dialer)
        (K.held sink.new) (admitting A.left A.came A.waits acceptor.new) (C.readings clock.new))
        (P.answers application.old) (P.answers application.new) end) }

    // Where it ends by a fault, what was done is as in a run up to there, and one action more in part; and it is told which requests
    // were given.
    ensures fails { OnErr result (LiveBreaks (GoesDrawing N.goes (Draws W.gives W.faults)) L.talk terms
        (run_moment (at_rest node.old parts.old.random) (dialling D.calls D.left D.came D.faults parts.old.dialer)
        (K.held sink.old) (admitting A.left A.came A.waits acceptor.old) (C.readings clock.old))
        (outside (dialling D.calls D.left D.came D.faults parts.new.dialer) (K.held sink.new) (admitting A.left A.came A.waits acceptor.new)
        (C.readings clock.new))
        (P.answers application.old) (P.answers application.new)) }

    // Whatever ends it, there was one wait before each turn: of no time before the first, after a turn that left something new of a link
    // to be told, and after one for which as many requests were taken as may be; and else of 50 ms.
    ensures rests { HasPaused (GoesDrawing N.goes (Draws W.gives W.faults)) L.talk terms.listens
        (run_moment (at_rest node.old parts.old.random) (dialling D.calls D.left D.came D.faults parts.old.dialer)
        (K.held sink.old) (admitting A.left A.came A.waits acceptor.old) (C.readings clock.old))
        (C.readings clock.new) (V.waits parts.old.waiter) (V.waits parts.new.waiter) }
    ensures write { RisesOnWriteFault result (K.faults sink.old) (K.faults sink.new) }
    ensures accept { RisesOnAcceptFault result (A.faults acceptor.old) (A.faults acceptor.new) }
    ensures writes_later { K.faults sink.old ≤ K.faults sink.new }
    ensures links_later { A.faults acceptor.old ≤ A.faults acceptor.new }

    // The acceptor stays bound to the port that it was bound to.
    ensures bound { Stays (A.bound acceptor.old) (A.bound acceptor.new) }
{
    let mut set = LinkSet::make(alloc)?;
    let mut start = None;
    let mut wait_ms = 0;
    for made in 0..terms.turns {
        parts.waiter.wait(wait_ms);
        let batch = take_requests(alloc, application)?;
        let from = TurnStart {
            alloc,
            script: batch.as_slice(),
            start,
            listens: terms.listens,
        };
        let turn = node_turn(from, node, &mut set, sink, clock, acceptor, parts)?;
        if set.has_finished() {
            return Ok(RunEnd::Finished);
        }
        start = Some(start.unwrap_or(turn.time));
        wait_ms = pause_ms(batch.as_slice(), set.has_news());
    }
    Ok(RunEnd::Spent)
}
