//! The steps of a network.
use crate::way::Way;
use bsc_node::NodeEvent;

/// A step of a network. Hubs, nodes and links are counted from 0.
#[derive(Debug, Drop)]
pub enum WorldStep {
    /// An event of a node's own: it starts, its user wants something, or time has passed.
    Node { node: u32, event: NodeEvent },
    /// The front of a way of a link arrives.
    Arrive { link: u32, way: Way },
    /// A link is lost, with all that it carries.
    Lose { link: u32 },
    /// The hub's side of a link takes once from its outbox.
    Take { link: u32 },
    /// A hub stops.
    Stop { hub: u32 },
}
