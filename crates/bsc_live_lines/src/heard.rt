//! What came of what was taken.
use bsc_node::NodeEvent;

/// What came of what was taken of an inbox.
#[derive(Debug, Drop)]
pub(crate) enum Heard {
    /// This is asked.
    Asks(NodeEvent),
    /// It asks for nothing, and more may be there.
    Silent,
    /// Nothing was there.
    Quiet,
}
