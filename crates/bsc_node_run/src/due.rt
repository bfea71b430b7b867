//! What a node is to be told at a time.
ghost use Rattle.std.specs.Prelude.{◌≡◌, true};
ghost use Rattle.bsc_node_run.specs.Requests.{has_octets};

use bsc_node::NodeEvent;

/// What a node is to be told once so many milliseconds have passed since it started.
#[derive(Debug, Drop)]
pub struct Due {
    pub at: u64,
    pub event: NodeEvent,
    ghost octets: { has_octets event ≡ true },
}
