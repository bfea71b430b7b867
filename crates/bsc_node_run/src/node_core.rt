//! A node without its links, its clock and its random source.
ghost use Rattle.std.specs.Prelude.{◌≡◌, ◌<◌, ◌^◌, true, IfOk};
ghost use Rattle.bsc_node_run.specs.Requests.{has_octets};

use bsc_node::{Action, NodeEvent};
use bsc_octets::NoMemory;
use std::alloc::Global;

/// A node without its links, its clock and its random source: events come in, actions go out.
pub trait Core {
    ghost use Rattle.std.specs.Prelude.{List, ℕ};
    ghost use Rattle.bsc_node.specs.declared.action.Action.{Action as ActionType};
    ghost use Rattle.bsc_node.specs.declared.node_event.NodeEvent.{NodeEvent as NodeEventType};

    /// What it is after an event that came at a time, and what it does then.
    ghost goes: { Self → ℕ → NodeEventType → List ActionType → Self → Type 0 };

    /// Something comes to the node, at this time in milliseconds: what it does.
    fn event(&mut self, alloc: Global, now: u64, event: &NodeEvent) -> Result<Vec<Action>, NoMemory>
        requires time { now < 2 ^ 62 }
        requires octets { has_octets event.now ≡ true }
        ensures { IfOk result (λ actions. goes self.old now event.now actions.items self.new) };
}
