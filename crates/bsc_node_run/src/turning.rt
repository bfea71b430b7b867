//! One turn of a node.
ghost use Rattle.std.specs.Prelude.{◌≡◌, ◌<◌, ◌≤◌, ◌^◌, ◌∷◌, [], ℕ, IfOk, OnErr, OnOk};
ghost use Rattle.bsc_edge.specs.Told.{Grows, Stays};
ghost use Rattle.bsc_node_run.specs.Halts.{Counts, CountsWrites, RisesOnAcceptFault, RisesOnWriteFault};
ghost use Rattle.bsc_node_run.specs.Handling.{BrokeOff, IsSameHand, Went};
ghost use Rattle.bsc_node_run.specs.declared.halt.Halt.{Halt as HaltType};
ghost use Rattle.bsc_node_run.specs.Drawing.{Draws, GoesDrawing, at_rest};
ghost use Rattle.bsc_node_run.specs.Moments.{in_hands, moment};
ghost use Rattle.bsc_node_run.specs.Stopping.{AdmitStops, StartStops, TurnBreaks};
ghost use Rattle.bsc_node_run.specs.Turning.{Admits, Starts, TurnsTo, passed_by};
ghost use Rattle.bsc_node_run.specs.Worlds.{admitting, dialling, world_of};

use crate::bounds::ACCEPT_WAIT_MS;
use crate::halt::Halt;
use crate::in_hand::InHand;
use crate::link_set::LinkSet;
use crate::node_core::Core;
use crate::parts::NodeParts;
use crate::turn_context::TurnContext;
use crate::turn_end::TurnEnd;
use crate::turn_start::TurnStart;
use crate::words::Words;
use bsc_edge::{Acceptor, Arrived, Clock, Dialer, Link, LinkFault};
use bsc_node::NodeEvent;
use bsc_outside::Sink;

impl<N: Core, K: Sink, W: Words, L: Link + Drop, D: Dialer<L>> InHand<
    '_,
    '_,
    '_,
    '_,
    '_,
    N,
    K,
    W,
    L,
    D,
> {
    /// Asks the acceptor once, where the node accepts direct connections, and tells the node of the link that arrived.
    #[tactic(auto, using(bsc_edge::proofs::Common::stays_same))]
    fn admit<A: Acceptor<L>>(&mut self, at: TurnContext, acceptor: &mut A) -> Result<(), Halt>
        ensures admits { OnOk result (Went N.goes W.gives W.faults L.talk (dialling D.calls D.left D.came D.faults) K.held
            (λ goes talk n w m v. Admits goes talk at.time at.listens (moment n w (admitting A.left A.came A.waits acceptor.old))
            (moment m v (admitting A.left A.came A.waits acceptor.new))) self.old self.new) }
        ensures stops { OnErr result (BrokeOff N.goes W.gives W.faults L.talk (dialling D.calls D.left D.came D.faults) K.held
            (λ goes talk n w v. AdmitStops goes talk at.time at.listens (moment n w (admitting A.left A.came A.waits acceptor.old))
            (in_hands v (admitting A.left A.came A.waits acceptor.new))) self.old self.new) }
        ensures writes { Counts HaltType.WriteFault result (K.faults self.old.sink.now) (K.faults self.new.sink.now) }
        ensures arrivals { Counts HaltType.AcceptFault result (A.faults acceptor.old) (A.faults acceptor.new) }
        ensures bound { Stays (A.bound acceptor.old) (A.bound acceptor.new) }
        ensures same { IsSameHand self.old self.new }
    {
        if !at.listens {
            return Ok(());
        }
        match acceptor.next(at.alloc, ACCEPT_WAIT_MS) {
            Ok(Arrived::Link(link)) => {
                self.set.arrived = Some(link);
                self.dispatch(at, &NodeEvent::Arrived)
            }
            Ok(Arrived::Quiet) => Ok(()),
            Err(LinkFault::Failed) => Err(Halt::AcceptFault),
            Err(LinkFault::NoMemory) => Err(Halt::NoMemory),
        }
    }

    /// Tells the node that it starts, where it has no start yet.
    fn begin(&mut self, at: TurnContext, start: Option<u64>) -> Result<(), Halt>
        ensures starts { OnOk result (Went N.goes W.gives W.faults L.talk (dialling D.calls D.left D.came D.faults) K.held
            (λ goes talk. Starts goes talk at.time start) self.old self.new) }
        ensures stops { OnErr result (BrokeOff N.goes W.gives W.faults L.talk (dialling D.calls D.left D.came D.faults) K.held
            (λ goes talk. StartStops goes talk at.time start) self.old self.new) }
        ensures counts { CountsWrites result (K.faults self.old.sink.now) (K.faults self.new.sink.now) }
        ensures same { IsSameHand self.old self.new }
    {
        match start {
            None => self.dispatch(at, &NodeEvent::Start),
            Some(_) => Ok(()),
        }
    }
}

/// How much time has passed since the first turn.
pub(crate) fn passed_by(start: Option<u64>, now: u64) -> u64
    ensures { result ≡ passed_by start now }
{
    now.saturating_sub(start.unwrap_or(now))
}

/// Makes one turn: it reads the clock once, and tells the node, in this order, that it starts, where it has no start yet;
/// that time has passed; what is new of its links; what of the script is due; what comes of each open link; and that a
/// link arrived, where it accepts direct connections. What the node does at each is carried out before the next.
///
/// Nothing is asked of what the node waits by: `run_core` waits between turns.
#[tactic(auto, using(bsc_edge::proofs::Common::stays_same))]
pub fn node_turn<
    'a,
    N: Core,
    K: Sink,
    C: Clock,
    V,
    W: Words,
    L: Link + Drop,
    A: Acceptor<L>,
    D: Dialer<L>,
>(
    from: TurnStart<'a>,
    node: &mut N,
    set: &mut LinkSet<L>,
    sink: &mut K,
    clock: &mut C,
    acceptor: &mut A,
    parts: &mut NodeParts<V, W, D>,
) -> Result<TurnEnd<'a>, Halt>
    ensures turns { IfOk result (λ r. TurnsTo (GoesDrawing N.goes (Draws W.gives W.faults)) L.talk from.entry
        (moment (at_rest node.old parts.old.random)
        (world_of set.old (dialling D.calls D.left D.came D.faults parts.old.dialer) (K.held sink.old))
        (admitting A.left A.came A.waits acceptor.old))
        (moment (at_rest node.new parts.new.random)
        (world_of set.new (dialling D.calls D.left D.came D.faults parts.new.dialer) (K.held sink.new))
        (admitting A.left A.came A.waits acceptor.new)) r) }

    // Where it ends by a fault, its parts went through in this order, up to the one in which it stopped.
    ensures stops { OnErr result ((t : ℕ) × Grows (C.readings clock.old) (C.readings clock.new) (t ∷ []) × (t < 2 ^ 62)
        × (C.newest clock.old ≤ t) × TurnBreaks (GoesDrawing N.goes (Draws W.gives W.faults)) L.talk t from.entry
        (moment (at_rest node.old parts.old.random)
        (world_of set.old (dialling D.calls D.left D.came D.faults parts.old.dialer) (K.held sink.old))
        (admitting A.left A.came A.waits acceptor.old))
        (in_hands (world_of set.new (dialling D.calls D.left D.came D.faults parts.new.dialer) (K.held sink.new))
        (admitting A.left A.came A.waits acceptor.new))) }
    ensures reading { IfOk result (λ r. Grows (C.readings clock.old) (C.readings clock.new) (r.time ∷ [])) }
    ensures below { IfOk result (λ r. r.time < 2 ^ 62) }

    // The time isn't less than the clock's newest reading before, and is its newest from then on.
    ensures rises { IfOk result (λ r. C.newest clock.old ≤ r.time) }
    ensures newest { IfOk result (λ r. C.newest clock.new ≡ r.time) }

    ensures failed { RisesOnWriteFault result (K.faults sink.old) (K.faults sink.new) }
    ensures later { K.faults sink.old ≤ K.faults sink.new }
    ensures accept { RisesOnAcceptFault result (A.faults acceptor.old) (A.faults acceptor.new) }
    ensures arrivals { A.faults acceptor.old ≤ A.faults acceptor.new }

    // The acceptor stays bound to the port that it was bound to.
    ensures bound { Stays (A.bound acceptor.old) (A.bound acceptor.new) }

    // What the node waits by between its turns is as it was.
    ensures waiter { parts.new.waiter ≡ parts.old.waiter }
{
    let now = clock.now();
    let passed = passed_by(from.start, now);
    let at = TurnContext {
        alloc: from.alloc,
        time: now,
        passed,
        listens: from.listens,
    };
    set.begin_turn(from.alloc);
    let mut hand = InHand {
        node,
        set,
        sink,
        random: &mut parts.random,
        dialer: &mut parts.dialer,
    };
    hand.begin(at, from.start)?;
    hand.dispatch(at, &NodeEvent::Tick)?;
    hand.give_news(at)?;
    let left = hand.give_due(at, from.script)?;
    hand.hear_all(at)?;
    hand.admit(at, acceptor)?;
    Ok(TurnEnd { time: now, left })
}
