//! What a line says as it comes.
ghost use Rattle.std.specs.Prelude.{◌≡◌, Some, None, true, false, IfOk, IfSome};
ghost use Rattle.bsc_node_run.specs.Requests.{is_asked};
ghost use Rattle.bsc_live_lines.specs.Requests.{asked_by, is_finish, said_by};
ghost use Rattle.bsc_live_lines.specs.Refusals.{is_good};

use bsc_node::NodeEvent;
use bsc_node_run::{Line, LineFault, read_line};
use bsc_octets::NoMemory;
use bsc_text::MAX_LINE_LEN;
use std::alloc::Global;

/// What a line says; None where it has no form of a line, or is too long.
#[tactic(auto, using(crate::proofs::AskedWell::said_well))]
pub(crate) fn said_by(alloc: Global, text: &[u8]) -> Result<Option<Line>, NoMemory>
    ensures said { IfOk result (λ said. said ≡ said_by text.now) }
    ensures asks { IfOk result (λ said. IfSome (asked_by said) (λ event. is_asked event ≡ true)) }
{
    if text.len() > MAX_LINE_LEN {
        return Ok(None);
    }
    match read_line(alloc, text) {
        Ok(line) => Ok(Some(line)),
        Err(LineFault::Refused) => Ok(None),
        Err(LineFault::NoMemory) => Err(NoMemory),
    }
}

/// Whether what is said is good, where the node was asked to end before or wasn't.
pub(crate) fn is_good(finished: bool, said: &Option<Line>) -> bool
    ensures { result ≡ is_good finished said.now }
{
    match said {
        None => false,
        Some(Line::Nothing) => true,
        Some(Line::At { .. }) => false,
        Some(Line::Ask { .. }) => !finished,
    }
}

/// What is asked by what a line says.
pub(crate) fn asked_by(said: Option<Line>) -> Option<NodeEvent>
    ensures { result ≡ asked_by said }
{
    match said {
        Some(Line::Ask { event }) => Some(event),
        _ => None,
    }
}

/// Whether the node is asked to end.
pub(crate) fn is_finish(event: &NodeEvent) -> bool
    ensures { result ≡ is_finish event.now }
{
    match event {
        NodeEvent::Finish => true,
        _ => false,
    }
}
