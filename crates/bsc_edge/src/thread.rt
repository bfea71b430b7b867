//! A thread that does a job.
use crate::job::Job;
use std::sync::Wait;
use std::thread::Threads;

/// A thread that was started for a job.
pub trait Thread<J: Job>: Drop {
    /// The job.
    ghost job: { Self → J };

    /// Whether the job has ended, by what the thread has said so far.
    fn has_ended(&self) -> bool;

    /// Waits for the thread, and gives what is left of its job.
    fn join<R: Wait, H: Threads>(self, rt: &R, threads: &H) -> J::Done
        ensures { J.works (job self) result };
}
