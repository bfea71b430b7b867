//! What is left of a session.
use crate::ended::Ended;
use crate::last::Last;
use bsc_hub::Pass;

/// What is left of a session that was served: its caller's pass, and how it ended. Its link, its clock and its journal are let
/// go.
#[derive(Drop)]
pub struct SessionEnd<L, C, N> {
    pub pass: Pass,
    pub ended: Ended,
    /// What they were at last.
    pub last: Last<L, C, N>,
}
