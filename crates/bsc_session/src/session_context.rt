//! What doesn't change while a session is served.
use crate::limits::SessionLimits;
use bsc_hub::Hub;
use bsc_policy::Policy;
use std::alloc::Global;

/// By what a session is served: all that stays as it is, from its first reading to its Leave.
#[derive_where(Clone, Copy)]
pub struct SessionContext<'a, R> {
    /// What waits for the hub's turn.
    pub rt: &'a R,
    /// Where memory is taken.
    pub alloc: Global,
    /// The hub that is served.
    pub hub: &'a Hub,
    pub limits: &'a SessionLimits,
    /// By what the session is guarded, if by anything.
    pub policy: Option<&'a Policy>,
}
