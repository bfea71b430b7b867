//! What comes of the links of a node.
ghost use Rattle.std.specs.Prelude.{◌≡◌, true, IfSome, IfOk, OnErr, OnOk};
ghost use Rattle.std.specs.Prelude.{None, Some};
ghost use Rattle.bsc_node.specs.declared.node_event.NodeEvent.TheVariants.{Lost as LostEvent};
ghost use Rattle.bsc_node_run.specs.Halts.{CountsWrites};
ghost use Rattle.bsc_node_run.specs.Handling.{BrokeOff, IsSameHand, Went};
ghost use Rattle.bsc_node_run.specs.Receiving.{Received};
ghost use Rattle.bsc_node_run.specs.Requests.{has_octets};
ghost use Rattle.bsc_node_run.specs.Stopping.{EachStop, HearStops, Misses};
ghost use Rattle.bsc_node_run.specs.Turning.{HearsEach, LinkHears, names, slots_from};
ghost use Rattle.bsc_node_run.specs.Worlds.{Becomes, Undergoes, dialling, ends, link_in, with_link};

use crate::halt::Halt;
use crate::in_hand::InHand;
use crate::link_set::LinkSet;
use crate::node_core::Core;
use crate::turn_context::TurnContext;
use crate::words::Words;
use bsc_connector::Side;
use bsc_direct::SLOTS;
use bsc_edge::{Dialer, Incoming, Link, LinkFault};
use bsc_node::{LinkName, NodeEvent};
use bsc_octets::NoMemory;
use bsc_outside::Sink;
use std::alloc::Global;

/// The link of a name is lost: what the node is told of it.
fn lose<L: Link + Drop>(set: &mut LinkSet<L>, name: LinkName) -> Result<Option<NodeEvent>, NoMemory>
    ensures octets { IfOk result (λ e. IfSome e (λ event. has_octets event ≡ true)) }
    ensures ended { IfOk result (λ e. (e ≡ Some (LostEvent name)) × ((l : L) → link_in set.old name ≡ Some l → Becomes (ends name l) set.old set.new)) }
    ensures dropped { OnErr result (Becomes (with_link name None) set.old set.new) }
{
    set.take_out(name)?;
    Ok(Some(NodeEvent::Lost(name)))
}

/// Receives once on the link of a name: what the node is told of it, where something came.
fn receive<L: Link + Drop>(
    alloc: Global,
    set: &mut LinkSet<L>,
    name: LinkName,
) -> Result<Option<NodeEvent>, NoMemory>
    ensures octets { IfOk result (λ e. IfSome e (λ event. has_octets event ≡ true)) }
    ensures received { IfOk result (λ e. Undergoes (Received L.talk name (link_in set.old name) e) set.old set.new) }
    ensures missed { OnErr result (Undergoes (Misses L.talk name (link_in set.old name)) set.old set.new) }
{
    match set.receive(alloc, name) {
        Some(Ok(Incoming::Message(octets))) => Ok(Some(NodeEvent::Came(name, octets))),
        Some(Ok(Incoming::Text)) => Ok(Some(NodeEvent::CameText(name))),
        Some(Ok(Incoming::Quiet)) => Ok(None),
        Some(Ok(Incoming::Closed)) => lose(set, name),
        Some(Err(LinkFault::Failed)) => lose(set, name),
        Some(Err(LinkFault::NoMemory)) => Err(NoMemory),
        None => Ok(None),
    }
}

impl<N: Core, K: Sink, W: Words, L: Link + Drop, D: Dialer<L>> InHand<
    '_,
    '_,
    '_,
    '_,
    '_,
    N,
    K,
    W,
    L,
    D,
> {
    /// Receives once on the link of a name, where the node was told that it is open, and tells the node what came.
    fn hear(&mut self, at: TurnContext, name: LinkName) -> Result<(), Halt>
        ensures hears { OnOk result (Went N.goes W.gives W.faults L.talk (dialling D.calls D.left D.came D.faults) K.held
            (λ goes talk. LinkHears goes talk at.time name) self.old self.new) }
        ensures stops { OnErr result (BrokeOff N.goes W.gives W.faults L.talk (dialling D.calls D.left D.came D.faults) K.held
            (λ goes talk. HearStops goes talk at.time name) self.old self.new) }
        ensures counts { CountsWrites result (K.faults self.old.sink.now) (K.faults self.new.sink.now) }
        ensures same { IsSameHand self.old self.new }
    {
        if !self.set.is_open(name) {
            return Ok(());
        }
        match receive(at.alloc, self.set, name)? {
            Some(event) => self.dispatch(at, &event),
            None => Ok(()),
        }
    }

    /// Receives once on each open link in a slot.
    fn hear_slots(&mut self, at: TurnContext) -> Result<(), Halt>
        ensures hears { OnOk result (Went N.goes W.gives W.faults L.talk (dialling D.calls D.left D.came D.faults) K.held
            (λ goes talk. HearsEach goes talk at.time (slots_from SLOTS 0)) self.old self.new) }
        ensures stops { OnErr result (BrokeOff N.goes W.gives W.faults L.talk (dialling D.calls D.left D.came D.faults) K.held
            (λ goes talk. EachStop goes talk at.time (slots_from SLOTS 0)) self.old self.new) }
        ensures counts { CountsWrites result (K.faults self.old.sink.now) (K.faults self.new.sink.now) }
        ensures same { IsSameHand self.old self.new }
    {
        for k in 0..SLOTS {
            self.hear(at, LinkName::Direct(k))?;
        }
        Ok(())
    }

    /// Receives once on each open link: those of the hubs first, and then those in the slots.
    pub(crate) fn hear_all(&mut self, at: TurnContext) -> Result<(), Halt>
        ensures hears { OnOk result (Went N.goes W.gives W.faults L.talk (dialling D.calls D.left D.came D.faults) K.held
            (λ goes talk. HearsEach goes talk at.time names) self.old self.new) }
        ensures stops { OnErr result (BrokeOff N.goes W.gives W.faults L.talk (dialling D.calls D.left D.came D.faults) K.held
            (λ goes talk. EachStop goes talk at.time names) self.old self.new) }
        ensures counts { CountsWrites result (K.faults self.old.sink.now) (K.faults self.new.sink.now) }
        ensures same { IsSameHand self.old self.new }
    {
        self.hear(at, LinkName::Hub(Side::Primary))?;
        self.hear(at, LinkName::Hub(Side::Failover))?;
        self.hear_slots(at)
    }
}
