//! At what a node is told something.
ghost use Rattle.std.specs.Prelude.{◌<◌, ◌^◌};

use std::alloc::Global;

/// At what a node is told something in a turn.
#[derive(Clone, Copy)]
pub(crate) struct TurnContext {
    /// Where memory is taken.
    pub(crate) alloc: Global,
    /// The time, in milliseconds.
    pub(crate) time: u64,
    /// How much time has passed since the first turn.
    pub(crate) passed: u64,
    /// Whether the node accepts direct connections.
    pub(crate) listens: bool,
    ghost early: { time < 2 ^ 62 },
}
