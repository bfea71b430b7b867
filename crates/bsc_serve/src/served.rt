//! A hub that is served, and all that stays as it is meanwhile.
use crate::terms::ServeTerms;
use bsc_hub::Hub;
use bsc_policy::Policy;
use std::alloc::Global;
use std::sync::Arc;

/// A hub that is served, and all that stays as it is while it is served.
#[derive_where(Clone, Copy)]
pub struct ServedHub<'a, R> {
    /// What waits for the hub's turn, and for sessions to end.
    pub rt: &'a R,
    /// Where memory is taken.
    pub alloc: Global,
    /// The hub.
    pub hub: &'a Arc<Hub>,
    /// How its sessions are served, and how many links are awaited.
    pub terms: ServeTerms,
    /// Under what prefix the journals of sessions are kept, if they are.
    pub prefix: Option<&'a str>,
    /// By what sessions are guarded, if by anything.
    pub policy: &'a Option<Arc<Policy>>,
}
