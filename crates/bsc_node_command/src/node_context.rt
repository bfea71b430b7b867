//! What doesn't change while a node is run.
use bsc_settings::NodeSettings;
use std::alloc::Global;

/// By what a node is run: what stays as it is from its settings on.
#[derive(Clone, Copy)]
pub(crate) struct NodeContext<'a> {
    /// Where memory is taken.
    pub(crate) alloc: Global,
    /// The settings of the node.
    pub(crate) settings: &'a NodeSettings,
}
