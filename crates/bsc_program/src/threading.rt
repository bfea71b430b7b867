//! The threads of sessions.
ghost use Rattle.bsc_edge.specs.Threads.{Begins, job_of};

use bsc_edge::{DiskJournal, Monotonic, Promised, Running, Thread, Unstarted};
use bsc_session::{SessionEnd, SessionJob};
use bsc_sockets::RealLink;
use std::io::Write;
use std::net::Net;
use std::random::RandomSource;
use std::sync::Wait;
use std::thread::Threads;
use std::time::Clock;

/// The session of a real link, with its journal in such a file.
pub(crate) type Job<R, F> = SessionJob<RealLink<R>, Monotonic<R>, DiskJournal<F>>;

/// What is left of it.
type Left<R, F> = SessionEnd<RealLink<R>, Monotonic<R>, DiskJournal<F>>;

/// A thread that was started for a session. It has a name of its own, since a check of `main` can't hold the types that it is
/// made of.
#[derive(Drop)]
pub(crate) struct SessionThread<
    R: Clock + Net + RandomSource + Wait + Copy + Drop,
    F: Write + Drop,
> {
    running: Running<Result<Left<R, F>, Job<R, F>>, Promised<Job<R, F>>>,
}

impl<R: Clock + Net + RandomSource + Wait + Copy + Drop, F: Write + Drop> Thread<Job<R, F>>
    for SessionThread<R, F> {
    ghost job = { λ t. job_of t.running };

    fn has_ended(&self) -> bool {
        self.running.has_ended()
    }

    fn join<W: Wait, H: Threads>(self, rt: &W, threads: &H) -> Left<R, F> {
        self.running.join(rt, threads)
    }
}

/// The thread of a session that was started, or its job.
pub(crate) fn thread_of<R: Clock + Net + RandomSource + Wait + Copy + Drop, F: Write + Drop>(
    started: Result<
        Running<Result<Left<R, F>, Job<R, F>>, Promised<Job<R, F>>>,
        Unstarted<Job<R, F>>,
    >,
) -> Result<SessionThread<R, F>, Unstarted<Job<R, F>>>
    ensures { (j : _) → Begins job_of started j → Begins (λ t. job_of t.running) result j }
{
    match started {
        Ok(running) => Ok(SessionThread { running }),
        Err(unstarted) => Err(unstarted),
    }
}
