//! At what an event finds a node.
ghost use Rattle.std.specs.Prelude.{◌<◌, ◌^◌};

use bsc_node::NodeLimits;
use std::alloc::Global;

/// At what an event finds a node: where memory is taken, the settings of the node, and the time in milliseconds.
#[derive(Clone, Copy)]
pub(crate) struct EventContext<'a> {
    pub(crate) alloc: Global,
    pub(crate) limits: &'a NodeLimits,
    pub(crate) time: u64,
    ghost early: { time < 2 ^ 62 },
}
