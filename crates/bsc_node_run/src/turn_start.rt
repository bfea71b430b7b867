//! What a turn of a node starts from.
use crate::due::Due;
use std::alloc::Global;

/// What a turn of a node starts from.
#[derive(Clone, Copy)]
pub struct TurnStart<'a> {
    /// Where memory is taken.
    pub alloc: Global,
    /// What of the script wasn't due before.
    pub script: &'a [Due],
    /// The time of the first turn, in milliseconds; none where this is it.
    pub start: Option<u64>,
    /// Whether the node accepts direct connections.
    pub listens: bool,
}
