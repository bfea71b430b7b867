//! Runs of a node for an application in memory.
ghost use Rattle.std.specs.Prelude.{IfOk, Some, [], false};
ghost use Rattle.bsc_node_run.specs.Drawing.{Draws, GoesDrawing, at_rest};
ghost use Rattle.bsc_node_run.specs.Moments.{run_moment};
ghost use Rattle.bsc_node_run.specs.Worlds.{admitting, dialling};
ghost use Rattle.bsc_application.specs.Living.{Answered, LiveRun};

use crate::echo::Echo;
use bsc_application::{LiveTerms, MemApplication, Planned, run_application};
use bsc_edge::{
    Acceptor, Clock, Dialer, Link, MemAcceptor, MemClock, MemDialer, MemLink, MemWaiter, Waiter,
};
use bsc_node::NodeEvent;
use bsc_node_run::{Core, Halt, MemWords, NodeParts, RunEnd, Words};
use bsc_octets::{NoMemory, Vmac};
use bsc_outside::{MemSink, Sink};
use std::alloc::Global;

/// Runs a node by a plan, for a thousand turns at most: it is told what of the plan the application gave.
fn run_plan<
    N: Core,
    K: Sink,
    C: Clock,
    V: Waiter,
    W: Words,
    L: Link + Drop,
    A: Acceptor<L>,
    D: Dialer<L>,
>(
    alloc: Global,
    node: &mut N,
    plan: Vec<Planned>,
    sink: &mut K,
    clock: &mut C,
    acceptor: &mut A,
    parts: &mut NodeParts<V, W, D>,
) -> Result<RunEnd, Halt>
    ensures { IfOk result (λ end. (given : Answered) × LiveRun (GoesDrawing N.goes (Draws W.gives W.faults)) L.talk false end 1000
        (run_moment (at_rest node.old parts.old.random) (dialling D.calls D.left D.came D.faults parts.old.dialer)
        (K.held sink.old) (admitting A.left A.came A.waits acceptor.old) (C.readings clock.old))
        (run_moment (at_rest node.new parts.new.random) (dialling D.calls D.left D.came D.faults parts.new.dialer)
        (K.held sink.new) (admitting A.left A.came A.waits acceptor.new) (C.readings clock.new)) (Some []) given) }
{
    let mut application = MemApplication::new(plan);
    let terms = LiveTerms {
        listens: false,
        turns: 1_000,
    };
    run_application(
        alloc,
        node,
        terms,
        sink,
        clock,
        acceptor,
        parts,
        &mut application,
    )
}

const A: Vmac = Vmac([2, 0, 0, 0, 0, 10]);

const B: Vmac = Vmac([2, 0, 0, 0, 0, 11]);

/// What is planned: two requests for the third turn, and that the node ends in the fifth.
fn plan(alloc: Global) -> Result<Vec<Planned>, NoMemory> {
    let mut plan = Vec::new(alloc);
    plan.push(Planned {
        turn: 2,
        event: NodeEvent::Solicit(B),
    })?;
    plan.push(Planned {
        turn: 2,
        event: NodeEvent::Solicit(A),
    })?;
    plan.push(Planned {
        turn: 4,
        event: NodeEvent::Finish,
    })?;
    Ok(plan)
}

/// What a run came to.
#[derive(Drop)]
struct Came {
    end: Option<RunEnd>,
    written: Vec<u8>,
    waits: Vec<u32>,
}

/// Runs it for an application in memory, over an outside in memory.
fn run_echo(alloc: Global) -> Result<Came, NoMemory> {
    let mut node = Echo;
    let mut sink = MemSink::make(alloc, 2_000, &[])?;
    let mut clock = MemClock::new(alloc, &[100, 150, 200, 200, 300]);
    let links: Vec<MemLink<'static>> = Vec::new(alloc);
    let arriving: Vec<MemLink<'static>> = Vec::new(alloc);
    let mut acceptor = MemAcceptor::new(alloc, arriving, &[]);
    let mut parts = NodeParts {
        waiter: MemWaiter::new(alloc),
        random: MemWords::new(&[], &[]),
        dialer: MemDialer::new(alloc, links, &[]),
    };
    let end = run_plan(
        alloc,
        &mut node,
        plan(alloc)?,
        &mut sink,
        &mut clock,
        &mut acceptor,
        &mut parts,
    );
    Ok(Came {
        end: end.ok(),
        written: Vec::from_slice(alloc, sink.held())?,
        waits: Vec::from_slice(alloc, parts.waiter.waits().unwrap_or(&[]))?,
    })
}

#[test]
fn requests_come_in_their_turns(rt: HostRuntime) -> Result<(), NoMemory> {
    let came = run_echo(rt.alloc())?;
    assert!(rt; came.end == Some(RunEnd::Finished));
    assert!(rt;
        came.written.as_slice()
            == b"nopath 02000000000B\nnopath 02000000000A\nfinished\n".as_slice()
    );
    assert!(rt; came.waits.as_slice() == [0, 50, 50, 50, 50].as_slice());
    Ok(())
}
