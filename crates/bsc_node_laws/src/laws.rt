//! What is proved of the links of a node, carried by a function that does nothing.
ghost use Rattle.std.specs.Prelude.{◌≡◌, IsTrue, List, ◌∷◌};
ghost use Rattle.bsc_node.specs.declared.node_event.NodeEvent.{NodeEvent};
ghost use Rattle.bsc_node.specs.declared.timed_event.TimedEvent.{TimedEvent};
ghost use Rattle.bsc_node.specs.Conditions.{may_all_come, may_come};
ghost use Rattle.bsc_node.specs.Logs.{Made};
ghost use Rattle.bsc_node.specs.Node.{log};
ghost use Rattle.bsc_node_laws.specs.Links.{Brings};

/// After any events that may come, the first of which is the start: at one more event that may come a link is dialled or
/// taken only where none of its name is there, and that the node has ended is told only once it is to end.
pub fn links_begin_anew()
    ensures { (a : Made) (start : TimedEvent) (events : List TimedEvent) (e : TimedEvent) → start.event ≡ NodeEvent.Start →
        IsTrue (may_all_come a (start ∷ events)) → IsTrue (may_come (log a (start ∷ events)) e) →
        Brings a (log a (start ∷ events)) e e.event }
{}
