//! What links are for.

/// What a link is for: its sub-protocol.
#[derive(Clone, Copy, Debug, PartialEq, Eq)]
pub enum Kind {
    /// Of a node and a hub: `hub.bsc.bacnet.org`.
    Hub,
    /// Of two nodes: `dc.bsc.bacnet.org`.
    Direct,
}
