//! What serving a hub is asked for.
use bsc_session::SessionLimits;

/// How the sessions of a hub are served, and for how long.
#[derive(Clone, Copy)]
pub struct ServeTerms {
    /// The waits of each session.
    pub limits: SessionLimits,
    /// How many turns each session makes at most.
    pub turns: u64,
    /// How many links are awaited; None for ever.
    pub sessions: Option<u64>,
}
