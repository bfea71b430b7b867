//! A hub that is kept for later.
use crate::hub::Hub;
use bsc_turn::Pass;
use std::sync::Arc;

/// A place for a hub and its first pass. Who makes a hub to serve it puts both here, so that its caller has them
/// afterwards.
#[derive(Drop)]
pub struct Kept {
    pub hub: Option<Arc<Hub>>,
    pub pass: Option<Pass>,
}
