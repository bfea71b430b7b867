//! On what terms the session of a job is served.
use crate::limits::SessionLimits;
use bsc_policy::Policy;
use std::sync::Arc;

/// On what terms the session of a job is served: the fields of these names of the job.
#[derive(Drop)]
pub struct JobTerms {
    /// The waits of the session.
    pub limits: SessionLimits,
    /// How many receives the session may make.
    pub turns: u64,
    /// Whether entries have a line.
    pub is_recorded: bool,
    /// By what the session is guarded, if by anything.
    pub policy: Option<Arc<Policy>>,
}
