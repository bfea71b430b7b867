//! The place for a hub that the command makes.
use bsc_hub::Kept;

/// The place for a hub that the command makes: who calls it has the hub, its first pass and its own journal afterwards.
#[derive(Drop)]
pub struct HubPlace<N> {
    /// The place for the hub, and for its first pass.
    pub kept: Kept,
    /// The place for the own journal of the hub.
    pub own: Option<N>,
}
