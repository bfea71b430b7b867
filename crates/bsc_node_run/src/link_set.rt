//! The links of a node, and what is new of them.
ghost use Rattle.std.specs.Prelude.{◌≡◌, vec_len};
ghost use Rattle.bsc_direct.specs.declared.bounds.TheConstants.{SLOTS};

use crate::news::News;
use std::collections::VecDeque;

/// The links of a node by their names, and what is new of them.
#[derive(Drop)]
pub struct LinkSet<L> {
    pub(crate) primary: Option<L>,
    pub(crate) failover: Option<L>,
    /// The links in the slots, by their numbers.
    pub(crate) slots: Vec<Option<L>>,
    /// The link that arrived, until the node takes or refuses it.
    pub(crate) arrived: Option<L>,
    /// The links that were taken out in this turn, the newest last.
    pub(crate) over: Vec<L>,
    /// What is told to the node in this turn, the oldest first.
    pub(crate) due: VecDeque<News>,
    /// What is told to the node in the next turn, the oldest first.
    pub(crate) waiting: VecDeque<News>,
    /// Whether the node told that it has ended.
    pub(crate) finished: bool,
    ghost all: { vec_len slots ≡ SLOTS },
}
