//! By what terms a node is run.
use crate::due::Due;

/// By what terms a node is run.
#[derive(Clone, Copy)]
pub struct RunTerms<'a> {
    /// What the node is to be told, and when.
    pub script: &'a [Due],
    /// Whether it accepts direct connections.
    pub listens: bool,
    /// How many turns it may make.
    pub turns: u64,
}
