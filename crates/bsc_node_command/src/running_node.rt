//! A node as its runner sees it.
ghost use Rattle.bsc_node_command.specs.Comes.{AnswersAt};

use bsc_node::{Action, NodeEvent};
use bsc_node_core::Node;
use bsc_node_run::Core;
use bsc_octets::NoMemory;
use std::alloc::Global;

/// A node as its runner sees it: at each event it answers what the definition of a node asks for.
#[derive(Drop)]
pub struct RunningNode {
    pub(crate) node: Node,
}

impl Core for RunningNode {
    ghost goes = { AnswersAt };

    fn event(
        &mut self,
        alloc: Global,
        now: u64,
        event: &NodeEvent,
    ) -> Result<Vec<Action>, NoMemory> {
        let actions = self.node.event(alloc, now, event)?;
        Ok(actions.into_vec())
    }
}
