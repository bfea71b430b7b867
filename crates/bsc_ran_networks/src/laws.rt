//! What holds of networks of hubs and nodes that the commands ran, carried by a function that does nothing.
ghost use Rattle.bsc_node_run.specs.Drawing.{Draws};
ghost use Rattle.bsc_ran_networks.specs.Networks.{HubsAndNodesThatRanDeliver};
ghost use Rattle.bsc_ran_networks.specs.Wires.{WhatRanDeliversByWires};

use bsc_edge::{Clock, Journals, Link};
use bsc_node_run::Words;
use bsc_outside::Sink;

/// Each hub that the command `hub` made has had a run, and each node that the command `node` ran, with any status. In each network of
/// these runs, whose links keep order and lose only what comes last, each delivery is of a Send, with the addresses of both its
/// nodes, and no two of one node are of the same.
pub fn hubs_and_nodes_that_ran_deliver<
    L: Link,
    C: Clock,
    N: Sink,
    J: Journals<N>,
    K: Link,
    W: Words,
>()
    ensures { HubsAndNodesThatRanDeliver L.talk L.faults L.notices C.readings N.held N.faults J.begins K.talk (Draws W.gives W.faults) }
{
    crate::hub_runs::hubs_that_ran_deliver::<L, C, N, J>();
    bsc_network_of_runs::runs_are_of_nodes::<K, W>();
    bsc_network_of_runs::stopped_runs_are_of_nodes::<K>();
    bsc_node_command::ran_nodes_use_links::<K, W>();
    bsc_node_command::stopped_nodes_use_links::<K, W>();
}

/// The same by what the links themselves told: where each gave at one end the first of what was put at the other, each delivery is
/// of a Send, and no two of one node are of the same.
pub fn what_ran_delivers_by_wires<L: Link, C: Clock, N: Sink, J: Journals<N>, K: Link, W: Words>()
    ensures { WhatRanDeliversByWires L.talk L.faults L.notices C.readings N.held N.faults J.begins K.talk (Draws W.gives W.faults) }
{
    crate::hub_runs::hubs_that_ran_deliver::<L, C, N, J>();
    bsc_network_of_runs::runs_are_of_nodes::<K, W>();
    bsc_network_of_runs::stopped_runs_are_of_nodes::<K>();
    bsc_node_command::ran_nodes_use_links::<K, W>();
    bsc_node_command::stopped_nodes_use_links::<K, W>();
    bsc_network_of_runs::wires_are_links();
}
