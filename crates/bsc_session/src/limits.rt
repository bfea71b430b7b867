//! The limits of sessions.
use bsc_accept::Times;

/// The limits of a session.
#[derive(Clone, Copy, Debug, PartialEq, Eq)]
pub struct SessionLimits {
    /// How long its machine waits.
    pub times: Times,
}
