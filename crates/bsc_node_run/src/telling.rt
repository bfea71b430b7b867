//! Telling a node what came, and carrying out what it does.
ghost use Rattle.std.specs.Prelude.{◌≡◌, ◌<◌, ◌^◌, true, IfOk, OnErr, OnOk, IsTrue};
ghost use Rattle.bsc_node.specs.declared.node_event.NodeEvent.{NodeEvent as NodeEventType};
ghost use Rattle.bsc_node.specs.Conditions.{brings_word};
ghost use Rattle.bsc_node_run.specs.Drawing.{Draws, awaiting};
ghost use Rattle.bsc_node_run.specs.Halts.{CountsWrites};
ghost use Rattle.bsc_node_run.specs.Handling.{BrokeOff, IsSameHand, Went};
ghost use Rattle.bsc_node_run.specs.Turning.{GivesWord, Gives, draws};
ghost use Rattle.bsc_node_run.specs.Performing.{Carries, is_draw};
ghost use Rattle.bsc_node_run.specs.Stopping.{GiveStops, StopsAt};
ghost use Rattle.bsc_node_run.specs.Worlds.{dialling, world_of};
ghost use Rattle.bsc_node_run.specs.Requests.{has_octets};

use crate::halt::Halt;
use crate::in_hand::InHand;
use crate::link_set::LinkSet;
use crate::node_core::Core;
use crate::performing::perform;
use crate::turn_context::TurnContext;
use crate::words::Words;
use bsc_edge::{Dialer, Link};
use bsc_node::{Action, NodeEvent};
use bsc_outside::{Failed, Sink};

/// Whether a random word is drawn.
fn is_draw(action: &Action) -> bool
    ensures { result ≡ is_draw action.now }
{
    match action {
        Action::Draw => true,
        Action::Dial(_, _)
        | Action::Take(_)
        | Action::Refuse(_)
        | Action::Put(_, _)
        | Action::Close(_, _)
        | Action::Deliver(_)
        | Action::Tell(_) => false,
    }
}

/// Whether a random word is drawn by one of these.
fn draws(actions: &[Action]) -> bool
    ensures { result ≡ draws actions.now }
{
    actions.iter().any(|action| is_draw(action))
}

/// Draws a random word: what the node is told of it.
fn draw<W: Words>(random: &mut W) -> NodeEvent
    ensures octets { has_octets result ≡ true }
    ensures word { IsTrue (brings_word result) }
    ensures drawn { Draws W.gives W.faults result random.old random.new }
{
    match random.next() {
        Ok(word) => NodeEvent::Random(word),
        Err(Failed) => NodeEvent::NoRandom,
    }
}

/// Tells a node what came, and carries out what it does, but for a random word that it draws.
fn tell<N: Core, K: Sink, L: Link + Drop, D: Dialer<L>>(
    at: TurnContext,
    node: &mut N,
    set: &mut LinkSet<L>,
    sink: &mut K,
    dialer: &mut D,
    event: &NodeEvent,
) -> Result<Vec<Action>, Halt>
    requires { has_octets event.now ≡ true }
    ensures goes { IfOk result (λ actions. N.goes node.old at.time event.now actions.items node.new) }
    ensures carries { IfOk result (λ actions. Carries L.talk actions.items
        (world_of set.old (dialling D.calls D.left D.came D.faults dialer.old) (K.held sink.old))
        (world_of set.new (dialling D.calls D.left D.came D.faults dialer.new) (K.held sink.new))) }
    ensures stops { OnErr result (StopsAt N.goes L.talk at.time event.now node.old
        (world_of set.old (dialling D.calls D.left D.came D.faults dialer.old) (K.held sink.old))
        (world_of set.new (dialling D.calls D.left D.came D.faults dialer.new) (K.held sink.new))) }
    ensures counts { CountsWrites result (K.faults sink.old) (K.faults sink.new) }
{
    let actions = node.event(at.alloc, at.time, event)?;
    perform(at.alloc, actions.as_slice(), set, sink, dialer)?;
    Ok(actions)
}

impl<N: Core, K: Sink, W: Words, L: Link + Drop, D: Dialer<L>> InHand<
    '_,
    '_,
    '_,
    '_,
    '_,
    N,
    K,
    W,
    L,
    D,
> {
    /// Draws a random word for the node, and tells it that.
    fn tell_word(&mut self, at: TurnContext) -> Result<(), Halt>
        ensures answers { OnOk result (Went N.goes W.gives W.faults L.talk (dialling D.calls D.left D.came D.faults) K.held
            (λ goes talk n. GivesWord goes talk at.time true (awaiting n)) self.old self.new) }
        ensures stops { OnErr result (BrokeOff N.goes W.gives W.faults L.talk (dialling D.calls D.left D.came D.faults) K.held
            (λ goes talk n w v. (word : NodeEventType) × IsTrue (brings_word word) × StopsAt goes talk at.time word (awaiting n) w v) self.old self.new) }
        ensures counts { CountsWrites result (K.faults self.old.sink.now) (K.faults self.new.sink.now) }
        ensures same { IsSameHand self.old self.new }
    {
        let word = draw(self.random);
        match tell(at, self.node, self.set, self.sink, self.dialer, &word) {
            Ok(_) => Ok(()),
            Err(halt) => Err(halt),
        }
    }

    /// Tells the node what came, and carries out what it does. Where it draws a random word, that is what it is told next.
    pub(crate) fn dispatch(&mut self, at: TurnContext, event: &NodeEvent) -> Result<(), Halt>
        requires { has_octets event.now ≡ true }
        ensures gives { OnOk result (Went N.goes W.gives W.faults L.talk (dialling D.calls D.left D.came D.faults) K.held
            (λ goes talk. Gives goes talk at.time event.now) self.old self.new) }
        ensures stops { OnErr result (BrokeOff N.goes W.gives W.faults L.talk (dialling D.calls D.left D.came D.faults) K.held
            (λ goes talk. GiveStops goes talk at.time event.now) self.old self.new) }
        ensures counts { CountsWrites result (K.faults self.old.sink.now) (K.faults self.new.sink.now) }
        ensures same { IsSameHand self.old self.new }
    {
        let actions = tell(at, self.node, self.set, self.sink, self.dialer, event)?;
        if draws(actions.as_slice()) {
            self.tell_word(at)
        } else {
            Ok(())
        }
    }
}
