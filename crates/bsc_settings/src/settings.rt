//! What is settled before a hub or a node starts.
use crate::hub::HubSettings;
use crate::node::NodeSettings;
use bsc_policy::Policy;
use std::sync::Arc;

/// The settings of a document: those of each table that it has.
#[derive(Drop)]
pub struct Settings {
    /// The table `hub`, where the document has it.
    pub hub: Option<HubSettings>,
    /// The table `node`, where the document has it.
    pub node: Option<NodeSettings>,
    /// The table `policy`, where the document has it. It is settled, and all that ask it share it.
    pub policy: Option<Arc<Policy>>,
}
