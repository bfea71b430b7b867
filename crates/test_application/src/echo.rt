//! A node that answers its user, and no one else.
use bsc_node::{Action, NodeEvent, Note};
use bsc_node_run::Core;
use bsc_octets::NoMemory;
use std::alloc::Global;

/// A node that tells that there is no path where it is asked for an Advertisement, and that it has ended where it is to end.
#[derive(Drop)]
pub struct Echo;

impl Core for Echo {
    ghost use Rattle.std.specs.Prelude.{⊤};

    ghost goes = { λ _ _ _ _ _. ⊤ };

    fn event(
        &mut self,
        alloc: Global,
        _now: u64,
        event: &NodeEvent,
    ) -> Result<Vec<Action>, NoMemory> {
        let mut actions = Vec::new(alloc);
        match event {
            NodeEvent::Solicit(vmac) => actions.push(Action::Tell(Note::NoPath(*vmac)))?,
            NodeEvent::Finish => actions.push(Action::Tell(Note::Finished))?,
            _ => (),
        }
        Ok(actions)
    }
}
