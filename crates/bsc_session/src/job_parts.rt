//! What a job is taken apart into.
use bsc_hub::{Hub, Pass};
use std::sync::Arc;

/// The hub, the pass and the link of a job that isn't to be worked off.
#[derive(Drop)]
pub struct JobParts<L> {
    pub hub: Arc<Hub>,
    pub pass: Pass,
    pub link: L,
}
