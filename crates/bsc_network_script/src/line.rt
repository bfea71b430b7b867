//! The lines of a network's script.
use bsc_network::WorldStep;
use bsc_octets::Identity;

/// A line of a network's script. Hubs, nodes and links are counted from 0.
#[derive(Debug, Drop)]
pub enum Line {
    /// An empty line, or a comment.
    Nothing,
    /// A hub is added.
    Hub(Identity),
    /// A node is added, which accepts direct connections or doesn't.
    Node { own: Identity, direct: bool },
    /// The clock is set to this time, in milliseconds.
    At { ms: u64 },
    /// A step is made.
    Step(WorldStep),
}
