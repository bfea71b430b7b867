//! Who starts jobs.
ghost use Rattle.std.specs.Prelude.{◌≡◌, ◌≤◌, [], None, Err};
ghost use Rattle.bsc_edge.specs.Told.{Comes, GivesBack, Grows, Joins, Starts, Stays, ended_in};
ghost use Rattle.bsc_edge.specs.declared.unstarted.Unstarted.{Unstarted};
ghost use Rattle.bsc_outside.specs.Faults.{HasRisen};

use crate::job::Job;
use crate::unstarted::Unstarted;
use std::alloc::Global;
use std::sync::Wait;

/// Starts jobs, each for itself, and gives back what is left of each that has ended.
pub trait Spawner<J: Job> {
    ghost use Rattle.std.specs.Prelude.{List, ℕ, None, Option};

    /// What `start` asks. A spawner that can start can start again.
    ghost can_start: { Self → Type 0 };

    /// How many jobs weren't started, up to the greatest `u64`.
    ghost faults: { Self → ℕ };

    /// The jobs that were taken, in order, where they are told.
    ghost jobs: { Self → Option (List J) };

    /// The jobs that are out: they were started, and what is left of them wasn't given back yet. The oldest is first.
    ghost out: { Self → List J };

    /// What is left of the jobs that have ended, as it was given back, in order, where that is told.
    ghost ends: { Self → Option (List J.Done) } = { λ _. None };

    /// Starts a job, or gives it back.
    fn start<R: Wait>(&mut self, rt: &R, alloc: Global, job: J) -> Result<(), Unstarted<J>>
        requires { can_start self.old }
        ensures again { can_start self.new }
        ensures back { GivesBack result job }
        ensures jobs { Starts (jobs self.old) (jobs self.new) result job }
        ensures ends { Stays (ends self.old) (ends self.new) }
        ensures out { Joins (out self.old) (out self.new) result job }
        ensures later { faults self.old ≤ faults self.new }
        ensures failed { (back : J) → result ≡ Err (Unstarted.Failed back) → HasRisen (faults self.old) (faults self.new) };

    /// What is left of a job that has ended, if one has. It waits for none.
    fn ended<R: Wait>(&mut self, rt: &R) -> Option<J::Done>
        ensures again { can_start self.old → can_start self.new }
        ensures jobs { Stays (jobs self.old) (jobs self.new) }
        ensures ends { Grows (ends self.old) (ends self.new) (ended_in result) }
        ensures out { Comes J.works (out self.old) (out self.new) result }
        ensures later { faults self.old ≤ faults self.new };

    /// Waits until a job has ended, and gives what is left of it. None says that no job is out.
    fn next_end<R: Wait>(&mut self, rt: &R) -> Option<J::Done>
        ensures again { can_start self.old → can_start self.new }
        ensures jobs { Stays (jobs self.old) (jobs self.new) }
        ensures ends { Grows (ends self.old) (ends self.new) (ended_in result) }
        ensures out { Comes J.works (out self.old) (out self.new) result }
        ensures none { result ≡ None → out self.new ≡ [] }
        ensures later { faults self.old ≤ faults self.new };
}
