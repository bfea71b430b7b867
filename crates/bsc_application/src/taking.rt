//! Taking what an application asks for.
ghost use Rattle.std.specs.Prelude.{◌≡◌, ◌++◌, ◌∷◌, [], IfOk, OnErr, OnOk, List, Some, map};
ghost use Rattle.bsc_edge.specs.Told.{Grows};
ghost use Rattle.bsc_node.specs.declared.node_event.NodeEvent.{NodeEvent as NodeEventType};
ghost use Rattle.bsc_application.specs.Asking.{IsBatch, answers_of};

use crate::application::Application;
use crate::bounds::MOST_REQUESTS;
use bsc_node_run::Due;
use bsc_octets::NoMemory;
use std::alloc::Global;

/// One more that the node is told in the next turn.
fn add(batch: &mut Vec<Due>, due: Due) -> Result<(), NoMemory>
    ensures { OnOk result (batch.new.items ≡ batch.old.items ++ due ∷ []) }
{
    match batch.push(due) {
        Ok(()) => Ok(()),
        Err(_) => Err(NoMemory),
    }
}

/// Takes what an application asks for now, and no more of it than may be taken before a turn.
#[tactic(auto, using(crate::proofs::Asking::asked_octets))]
pub(crate) fn take_requests<P: Application>(
    alloc: Global,
    application: &mut P,
) -> Result<Vec<Due>, NoMemory>
    ensures batch { IfOk result (λ batch. IsBatch batch.items) }
    ensures took { IfOk result (λ batch. Grows (P.answers application.old) (P.answers application.new) (answers_of batch.items)) }

    // Where memory runs out, these were given.
    ensures lost { OnErr result ((taken : List NodeEventType) × Grows (P.answers application.old) (P.answers application.new) (map Some taken)) }
{
    let mut batch = Vec::new(alloc);
    for taken in 0..MOST_REQUESTS {
        match application.next(alloc)? {
            Some(event) => add(&mut batch, Due { at: 0, event })?,
            None => return Ok(batch),
        }
    }
    Ok(batch)
}
