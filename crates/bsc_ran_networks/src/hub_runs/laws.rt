//! That serving a hub gives a run of a hub, carried by functions that do nothing.
ghost use Rattle.bsc_ran_networks.specs.HubRuns.Commands.{HubsRan};
ghost use Rattle.bsc_ran_networks.specs.HubRuns.Networks.{HubsThatRanDeliver};
ghost use Rattle.bsc_ran_networks.specs.HubRuns.Runs.{HubRunsAre};

use bsc_edge::{Clock, Journals, Link};
use bsc_outside::Sink;

/// Where a hub's first pass served it, that is the run of a hub, however serving ended: its history is legal, each job that the
/// spawner took is a session of it, no two of these have one caller, and whatever was forwarded was so by one of them.
pub fn hub_runs_are<L: Link, C: Clock, N: Sink, J: Journals<N>>()
    ensures { HubRunsAre L.talk L.faults L.notices C.readings N.held N.faults J.begins }
{
    bsc_network_of_runs::serving_gives_sessions();
    bsc_serve::all_but_stop_are_of_jobs::<L, C, N, J>();
    bsc_serve::jobs_end_at_last::<L, C, N, J>();
    bsc_serve::jobs_are_apart::<L, C, N, J>();
}

/// Each hub that the command `hub` made has had a run, whatever its status is, with the identity and the limits of its settings,
/// and with the sessions of the jobs that the spawner took.
pub fn hubs_ran<L: Link, C: Clock, N: Sink, J: Journals<N>>()
    ensures { HubsRan L.talk L.faults L.notices C.readings N.held N.faults J.begins }
{
    hub_runs_are::<L, C, N, J>();
}

/// In each network of hubs that the command `hub` made and of nodes that ran, whose links keep order and lose only what comes last,
/// each delivery is of a Send, and no two of one node are of the same. The premise is on the nodes and the links alone.
pub fn hubs_that_ran_deliver<L: Link, C: Clock, N: Sink, J: Journals<N>>()
    ensures { HubsThatRanDeliver L.talk L.faults L.notices C.readings N.held N.faults J.begins }
{
    hubs_ran::<L, C, N, J>();
    bsc_network_of_runs::runs_deliver_what_was_sent();
}
