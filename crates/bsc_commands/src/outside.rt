//! What the program is handed beside its words.
use bsc_hub_command::HubPlace;
use bsc_node_run::NodeParts;
use bsc_octets::Octets;
use bsc_serve::ServingParts;

/// What the program is handed beside its words.
#[derive(Drop)]
pub struct Outside<S, K, F, C, V, W, A, D, N, J, P> {
    /// The input.
    pub source: S,
    /// Where all that is written goes.
    pub sink: K,
    /// The files.
    pub files: F,
    /// What a node is run by.
    pub node: NodeParts<V, W, D>,
    /// The place for a hub that is made, with its first pass and its own journal.
    pub place: HubPlace<N>,
    /// What a hub is served by. A node has its clock and its acceptor from here too.
    pub parts: ServingParts<A, C, P, J>,
    /// The place for what an audit leaves to be told: why its journals aren't one legal history.
    pub why: Option<Octets>,
}
