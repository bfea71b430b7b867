//! What threads do.
use std::sync::Wait;

/// What a thread does, once.
pub trait Job: Drop {
    /// What is left of a job that was worked off.
    type Done: Drop;

    /// What may be left of a job, by what it was.
    ghost works: { Self → Self.Done → Type 0 };

    /// Does it all. Whatever isn't left of the job is let go before this returns, so in the thread that did it.
    fn work<R: Wait>(self, rt: &R) -> Self::Done
        ensures { works self result };
}
