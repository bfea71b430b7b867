//! Jobs that are kept.
ghost use Rattle.std.specs.Prelude.{◌≡◌, ◌≤◌, true, [], map, Option, Some, None, ⊤};
ghost use Rattle.bsc_edge.specs.Notes.{noted};
ghost use Rattle.bsc_edge.specs.Told.{Joins};
ghost use Rattle.bsc_edge.specs.Taken.{taken_jobs};

use crate::calls::Calls;
use crate::job::Job;
use crate::notes::note;
use crate::spawner::Spawner;
use crate::unstarted::Unstarted;
use std::alloc::Global;
use std::collections::VecDeque;
use std::snapshot::Snapshot;
use std::sync::Wait;

/// A spawner that keeps the jobs. None ends by itself: where the next end is waited for, the oldest is worked off. The
/// starts with these numbers fail. It tells the jobs that it took while there is memory for it.
#[derive(Drop)]
pub struct MemSpawner<'a, J> {
    kept: VecDeque<J>,
    taken: Option<Vec<Snapshot<J>>>,
    calls: Calls<'a>,
}

impl<'a, J> MemSpawner<'a, J> {
    pub fn new(alloc: Global, failing: &'a [u64]) -> MemSpawner<'a, J>
        ensures kept { result.kept.items ≡ [] }
        ensures taken { noted result.taken ≡ Some [] }
        ensures failing { result.calls.failing.now ≡ failing.now }
    {
        MemSpawner {
            kept: VecDeque::new(alloc),
            taken: Some(Vec::new(alloc)),
            calls: Calls::of(failing),
        }
    }

    /// The jobs that are kept, to be worked off.
    pub fn into_jobs(self) -> VecDeque<J>
        ensures { result.items ≡ self.entry.kept.items }
    {
        self.kept
    }

    /// How many jobs were taken; None where there was no memory to note them.
    pub fn taken(&self) -> Option<usize> {
        match &self.taken {
            Some(taken) => Some(taken.len()),
            None => None,
        }
    }
}

impl<J: Job> Spawner<J> for MemSpawner<'_, J> {
    ghost can_start = { λ _. ⊤ };

    ghost faults = { λ s. s.calls.faults };

    ghost jobs = { λ s. taken_jobs (noted s.taken) };

    ghost out = { λ s. s.kept.items };

    fn start<R: Wait>(&mut self, _rt: &R, _alloc: Global, job: J) -> Result<(), Unstarted<J>> {
        if self.calls.fails() {
            return Err(Unstarted::Failed(job));
        }
        let was = Snapshot::of(&job);
        match self.kept.push_back(job) {
            Ok(()) => {
                note(&mut self.taken, Ok(was));
                Ok(())
            }
            Err(failed) => Err(Unstarted::NoMemory(failed.value)),
        }
    }

    fn ended<R: Wait>(&mut self, _rt: &R) -> Option<J::Done> {
        None
    }

    fn next_end<R: Wait>(&mut self, rt: &R) -> Option<J::Done> {
        match self.kept.pop_front() {
            Some(job) => Some(job.work(rt)),
            None => None,
        }
    }
}
