//! What a node is run by.

/// What a node is run by, beside its clock, its acceptor and what takes its lines: what it waits by, its random words, and
/// what it dials by.
#[derive(Drop)]
pub struct NodeParts<V, W, D> {
    /// What the node waits by between its turns.
    pub waiter: V,
    /// Who draws its random words.
    pub random: W,
    /// What makes the links that it dials.
    pub dialer: D,
}
