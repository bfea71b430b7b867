//! What a network delivers.
use bsc_node::Delivered;

/// An NPDU that a node delivered: the place of the step that sent it, counted from 0, the node that delivered it, and
/// what it delivered.
#[derive(Debug, Drop)]
pub struct WorldDelivery {
    pub sent_at: u64,
    pub node: u32,
    pub delivered: Delivered,
}
