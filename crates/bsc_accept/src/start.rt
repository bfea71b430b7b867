//! With what a machine starts.
use crate::times::Times;
use bsc_octets::Identity;

/// With what a machine starts.
#[derive(Clone, Copy, Debug, PartialEq, Eq)]
pub struct Start {
    /// Who accepts: a Connect-Accept says it.
    pub own: Identity,
    /// How long it waits.
    pub times: Times,
    /// When it starts, in milliseconds.
    pub at: u64,
}
