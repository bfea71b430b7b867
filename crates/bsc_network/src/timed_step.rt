//! Steps with their times.
use crate::world_step::WorldStep;

/// A step of a network, and when it is made, in milliseconds.
#[derive(Debug, Drop)]
pub struct TimedStep {
    pub now: u64,
    pub step: WorldStep,
}
