//! Jobs in threads of their own.
ghost use Rattle.std.specs.Prelude.{◌≡◌, Result};
ghost use Rattle.bsc_edge.specs.Promises.{Keeps};
ghost use Rattle.bsc_edge.specs.Threads.{Begins, job_of};

use crate::job::Job;
use crate::places::Places;
use crate::promised::Promised;
use crate::running::Running;
use crate::thread::Thread;
use crate::unstarted::Unstarted;
use crate::word::Word;
use std::alloc::Global;
use std::snapshot::Snapshot;
use std::sync::{Arc, Wait};
use std::thread;
use std::thread::Threads;

impl<J: Job> Thread<J> for Running<Result<J::Done, J>, Promised<J>> {
    ghost job = { job_of };

    fn has_ended(&self) -> bool {
        self.word.has_ended()
    }

    fn join<R: Wait, H: Threads>(self, rt: &R, threads: &H) -> J::Done {
        match self.thread.join(threads) {
            Ok(done) => done,
            Err(job) => job.work(rt),
        }
    }
}

/// What a thread does: it works its job off, and says that this has ended.
fn run<R: Wait, J: Job>(job: J, rt: &R, word: &Word, places: &Places) -> Result<J::Done, J>
    ensures { Keeps J.works job result }
{
    if word.is_called_off() {
        return Err(job);
    }
    let done = job.work(rt);
    word.end();
    places.end(rt);
    Ok(done)
}

/// Starts a job in a thread of its own, where there is a place. What a `ThreadSpawner` is made with calls this.
pub fn launch<R: Threads + Wait + Copy + Send + 'static, J: Job + Send + 'static>(
    rt: &R,
    alloc: Global,
    places: &Arc<Places>,
    job: J,
) -> Result<Running<Result<J::Done, J>, Promised<J>>, Unstarted<J>>
where
    J::Done: Send + 'static,
    ensures { Begins job_of result job }
{
    let Ok(word) = Arc::new(alloc, Word::new()) else {
        return Err(Unstarted::NoMemory(job));
    };
    let (Ok(theirs), Ok(left)) = (Arc::try_clone(&word), Arc::try_clone(places)) else {
        return Err(Unstarted::NoMemory(job));
    };
    if !places.enter(rt) {
        return Err(Unstarted::Failed(job));
    }
    let handle = *rt;
    let promise = Promised {
        job: Snapshot::of(&job),
    };
    match thread::spawn_with(rt, promise, move || run(job, &handle, &theirs, &left)) {
        Ok(thread) => Ok(Running { thread, word }),
        Err(refused) => {
            word.call_off();
            places.leave(rt);
            match (refused.value)() {
                Err(job) => Err(Unstarted::Failed(job)),
                Ok(_done) => never(rt),
            }
        }
    }
}

/// What was called off before it began isn't done.
fn never<R: Wait, T>(rt: &R) -> T
    ensures { ⊥ }
{
    for _ in rt.forever() {}
    unreachable!()
}
