//! What asks a node for things while it runs.
ghost use Rattle.std.specs.Prelude.{◌≡◌, true, IfOk, IfSome};
ghost use Rattle.bsc_edge.specs.Told.{Grows};
ghost use Rattle.bsc_node_run.specs.Requests.{is_asked};
ghost use Rattle.bsc_application.specs.Asking.{answer_in};

use bsc_node::NodeEvent;
use bsc_octets::NoMemory;
use std::alloc::Global;

/// What asks a node for things while it runs: the program that the node is for.
///
/// The node asks for a request, and the application answers at once. One that gets requests from elsewhere (a thread, a socket) ends
/// the wait of the node's `Waiter` when one comes.
pub trait Application {
    ghost use Rattle.std.specs.Prelude.{List, Option};
    ghost use Rattle.bsc_node.specs.declared.node_event.NodeEvent.{NodeEvent as NodeEventType};

    /// What it has answered, call by call: a request, or that there was none just then; where that is told.
    ghost answers: { Self → Option (List (Option NodeEventType)) };

    /// The next request, where there is one now: an NPDU of some octets to send to a VMAC that isn't zero, a question for URIs, a
    /// direct connection, a question for an Advertisement, or that the node is to end. Where memory runs out, none is given.
    fn next(&mut self, alloc: Global) -> Result<Option<NodeEvent>, NoMemory>
        ensures asks { IfOk result (λ answer. IfSome answer (λ event. is_asked event ≡ true)) }
        ensures told { Grows (answers self.old) (answers self.new) (answer_in result) };
}
