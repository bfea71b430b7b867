//! What follows of a hub that was served. The functions do nothing: their contracts are the laws, and a caller that calls one
//! has the law at hand.
ghost use Rattle.std.specs.Prelude.{◌≡◌};
ghost use Rattle.bsc_session.specs.Jobs.{Worked};
ghost use Rattle.bsc_serve.specs.Alone.{AllButStopAreOfJobs, EntriesAreOfJobs, JobsAreApart, JobsEndAtLast, JobsHaveEnded, NothingBehindStop, SeenAreOfJobs, ServingIsAlone};
ghost use Rattle.bsc_serve.specs.Asking.{RequestsNeedAskers};
ghost use Rattle.bsc_serve.specs.declared.bounds.TheConstants.{SESSIONS, WAIT_MS};

use bsc_edge::{Clock, Journals, Link};
use bsc_outside::Sink;

/// Where a hub's first pass served it, each entry that the pass has at last seen is of its own caller or of one that it took in,
/// before it stopped the hub or after: nobody else called the hub.
pub fn serving_is_alone<L: Link, C: Clock, N: Sink, J: Journals<N>>()
    ensures { ServingIsAlone (Worked L.talk L.faults L.notices C.readings N.held N.faults) J.begins L.talk }
{}

/// Then each of these entries is of its own caller or of the pass of a job that the spawner took.
pub fn seen_are_of_jobs<L: Link, C: Clock, N: Sink, J: Journals<N>>()
    ensures { SeenAreOfJobs (Worked L.talk L.faults L.notices C.readings N.held N.faults) J.begins L.talk }
{}

/// Where its own pass had made none before, each of these entries is the Stop or of the pass of a job that the spawner took.
pub fn all_but_stop_are_of_jobs<L: Link, C: Clock, N: Sink, J: Journals<N>>()
    ensures { AllButStopAreOfJobs (Worked L.talk L.faults L.notices C.readings N.held N.faults) J.begins L.talk }
{}

/// And each entry before the Stop is of the pass of a job that the spawner took.
pub fn entries_are_of_jobs<L: Link, C: Clock, N: Sink, J: Journals<N>>()
    ensures { EntriesAreOfJobs (Worked L.talk L.faults L.notices C.readings N.held N.faults) J.begins L.talk }
{}

/// Each job that the spawner took has ended at last, and what is left of it stands in what the hub's own pass has seen.
pub fn jobs_end_at_last<L: Link, C: Clock, N: Sink, J: Journals<N>>()
    ensures { JobsEndAtLast (Worked L.talk L.faults L.notices C.readings N.held N.faults) J.begins L.talk }
{}

/// Where no job was out when the hub was stopped, each job that the spawner took had ended, and what is left of it stands in
/// the history before the Stop.
pub fn jobs_have_ended<L: Link, C: Clock, N: Sink, J: Journals<N>>()
    ensures { JobsHaveEnded (Worked L.talk L.faults L.notices C.readings N.held N.faults) J.begins L.talk }
{}

/// In all that the hub's own pass has at last seen, an entry behind a Stop joins nobody and forwards nothing.
pub fn nothing_behind_stop<L: Link, C: Clock, N: Sink, J: Journals<N>>()
    ensures { NothingBehindStop (Worked L.talk L.faults L.notices C.readings N.held N.faults) J.begins L.talk }
{}

/// No two jobs of a hub that was served have passes of one number.
pub fn jobs_are_apart<L: Link, C: Clock, N: Sink, J: Journals<N>>()
    ensures { JobsAreApart (Worked L.talk L.faults L.notices C.readings N.held N.faults) J.begins L.talk }
{}

/// Where the count of an asker stands at 0, as that of one that never asks, no end says that the stop was asked for.
pub fn requests_need_askers()
    ensures { RequestsNeedAskers }
{}

/// The places that the program has are for 2,048 sessions at once.
pub fn there_are_2048_places()
    ensures { SESSIONS ≡ 2048 }
{}

/// The acceptor is asked for 20 ms at a time.
pub fn the_acceptor_is_asked_for_20_ms()
    ensures { WAIT_MS ≡ 20 }
{}
