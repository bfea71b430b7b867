//! A request of an application in memory.
ghost use Rattle.std.specs.Prelude.{◌≡◌, true};
ghost use Rattle.bsc_node_run.specs.Requests.{is_asked};

use bsc_node::NodeEvent;

/// A request for a turn: it isn't made before. The first turn has the number 0.
#[derive(Debug, Drop)]
pub struct Planned {
    pub turn: u64,
    pub event: NodeEvent,
    ghost asked: { is_asked event ≡ true },
}
