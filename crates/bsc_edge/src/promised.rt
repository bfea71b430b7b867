//! What the thread of a job promises.
ghost use Rattle.bsc_edge.specs.Promises.{Keeps};

use crate::job::Job;
use std::snapshot::Snapshot;
use std::thread::Promise;

/// The promise of a thread: it gives what is left of this job; or the job itself, where it was called off before it began.
#[derive(Drop)]
pub struct Promised<J> {
    pub job: Snapshot<J>,
}

impl<J: Job> Promise<Result<J::Done, J>> for Promised<J> {
    ghost kept_by = { λ p r. Keeps J.works p.job.value r };
}
