//! The settings of a node.
use bsc_accept::Times;
use bsc_octets::Octets;

/// The settings of a node.
#[derive(Debug, Drop)]
pub struct NodeLimits {
    pub times: Times,
    /// The URI of the primary hub.
    pub primary: Octets,
    /// The URI of the failover hub, where there is one.
    pub failover: Option<Octets>,
    /// The node's own URIs, where it accepts direct connections.
    pub uris: Option<Octets>,
    /// The wait after one failure of a hub connection, in milliseconds.
    pub least_wait: u32,
    /// The longest wait.
    pub greatest_wait: u32,
}
