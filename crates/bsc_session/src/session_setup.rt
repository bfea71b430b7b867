//! The hub's side of a connection that is served.
use crate::limits::SessionLimits;
use bsc_hub::Hub;
use std::alloc::Global;

/// The hub's side of a connection that is served: at which hub, and within which bounds.
#[derive_where(Clone, Copy)]
pub struct SessionSetup<'a, R> {
    /// What waits for the hub's turn.
    pub rt: &'a R,
    /// Where memory is taken.
    pub alloc: Global,
    /// The hub that is served.
    pub hub: &'a Hub,
    /// The waits of the session.
    pub limits: &'a SessionLimits,
    /// How many receives the session may make.
    pub turns: u64,
}
