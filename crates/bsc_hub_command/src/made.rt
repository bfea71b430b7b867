//! A hub that is made.
use bsc_hub::Hub;
use std::alloc::Global;
use std::sync::Arc;

/// A hub that is made, with what it needs to be served: it stays so, whatever becomes of the hub.
#[derive_where(Clone, Copy)]
pub(crate) struct MadeHub<'a, R> {
    /// What waits for the hub's turn, and for sessions to end.
    pub(crate) rt: &'a R,
    /// Where memory is taken.
    pub(crate) alloc: Global,
    /// The hub.
    pub(crate) hub: &'a Arc<Hub>,
}
