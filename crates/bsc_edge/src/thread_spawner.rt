//! A spawner of threads.
ghost use Rattle.std.specs.Prelude.{◌≡◌, ◌≤◌, ◌<◌, [], map, vec_len, Some, Result, IfSome};
ghost use Rattle.bsc_edge.specs.Threads.{Begins};
ghost use Rattle.bsc_edge.specs.Told.{Ends};

use crate::job::Job;
use crate::places::Places;
use crate::spawner::Spawner;
use crate::thread::Thread;
use crate::unstarted::Unstarted;
use bsc_past::Past;
use std::alloc::Global;
use std::sync::{Arc, Wait};
use std::thread::Threads;

/// A spawner of threads. `begin` starts a job at one of the places, as `launch` does: a trait's method can't start a
/// thread itself, so the function that has the access to threads makes this closure. It tells which jobs it took, and what was
/// left of those that have ended, as it gave it back.
#[derive(Drop)]
pub struct ThreadSpawner<J: Job, T, H, F> {
    rt: H,
    begin: F,
    places: Arc<Places>,
    threads: Vec<T>,
    faults: u64,
    jobs: Past<J>,
    ends: Past<J::Done>,
}

impl<J: Job, T, H, F> ThreadSpawner<J, T, H, F> {
    pub fn new(rt: H, alloc: Global, begin: F, places: Arc<Places>) -> ThreadSpawner<J, T, H, F>
        ensures begin { result.begin ≡ begin }
        ensures threads { result.threads.items ≡ [] }
        ensures faults { result.faults ≡ 0 }
        ensures jobs { result.jobs.items ≡ [] }
        ensures ends { result.ends.items ≡ [] }
    {
        ThreadSpawner {
            rt,
            begin,
            places,
            threads: Vec::new(alloc),
            faults: 0,
            jobs: Past::new(),
            ends: Past::new(),
        }
    }
}

/// The place of the first thread whose job has ended.
fn first_ended<J: Job, T: Thread<J>>(threads: &Vec<T>) -> Option<usize>
    ensures { IfSome result (λ at. at < vec_len threads.now) }
{
    for at in 0..threads.len() {
        if threads[at].has_ended() {
            return Some(at);
        }
    }
    None
}

/// Waits for the thread at this place, and gives what is left of its job. Its place is free again.
fn give<R: Wait, H: Threads, J: Job, T: Thread<J>>(
    rt: &R,
    handle: &H,
    places: &Places,
    threads: &mut Vec<T>,
    at: usize,
) -> J::Done
    requires { at < vec_len threads.old }
    ensures { Ends J.works (map T.job threads.old.items) (map T.job threads.new.items) result }
{
    let thread = threads.remove(at);
    places.free(rt);
    thread.join(rt, handle)
}

impl<
    J: Job,
    T: Thread<J>,
    H: Threads + Drop,
    F: Drop + Fn(Global, &Arc<Places>, J) -> Result<T, Unstarted<J>>,
> Spawner<J> for ThreadSpawner<J, T, H, F> {
    ghost can_start = { λ s. F.IsAlwaysCallable s.begin × ((a : _) (p : _) (j : J) (r : _) → F.post s.begin a p j r → Begins T.job r j) };

    ghost faults = { λ s. s.faults };

    ghost jobs = { λ s. Some s.jobs.items };

    ghost ends = { λ s. Some s.ends.items };

    ghost out = { λ s. map T.job s.threads.items };

    fn start<R: Wait>(&mut self, _rt: &R, alloc: Global, job: J) -> Result<(), Unstarted<J>> {
        if self.threads.reserve(1).is_err() {
            return Err(Unstarted::NoMemory(job));
        }
        let jobs = self.jobs.with(&job);
        match (self.begin)(alloc, &self.places, job) {
            Ok(thread) => {
                self.threads.push_reserved(thread);
                self.jobs = jobs;
                Ok(())
            }
            Err(Unstarted::Failed(job)) => {
                self.faults = self.faults.saturating_add(1);
                Err(Unstarted::Failed(job))
            }
            Err(Unstarted::NoMemory(job)) => Err(Unstarted::NoMemory(job)),
        }
    }

    fn ended<R: Wait>(&mut self, rt: &R) -> Option<J::Done> {
        if !self.places.has_ended(rt) {
            return None;
        }
        match first_ended(&self.threads) {
            Some(at) => {
                let done = give(rt, &self.rt, &self.places, &mut self.threads, at);
                self.ends.add(&done);
                Some(done)
            }
            None => None,
        }
    }

    fn next_end<R: Wait>(&mut self, rt: &R) -> Option<J::Done> {
        if self.threads.is_empty() {
            return None;
        }
        self.places.wait(rt);
        let at = first_ended(&self.threads).unwrap_or(0);
        let done = give(rt, &self.rt, &self.places, &mut self.threads, at);
        self.ends.add(&done);
        Some(done)
    }
}
