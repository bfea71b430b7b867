//! Networks of runs: hubs that were served, nodes that ran, and links that keep order. Where each NPDU that a node delivers came
//! from, by the definitions of sessions and of nodes and by the histories of hubs alone: no world is simulated, and there is no
//! clock that all have.
//!
//! Start at `specs/Deliveries.antt`, which has the statement, by the words of `specs/Networks.antt`; `laws` has what is proved.
#![tactic(auto)]

mod laws;

pub use laws::{
    connections_are_as_born, connections_are_of_nodes, direct_deliveries_have_their_nodes,
    direct_deliveries_were_sent, events_are_reached, hub_deliveries_are_apart,
    hub_deliveries_have_their_nodes, hub_deliveries_were_sent, hub_links_give_what_was_sent,
    hubs_pass_on, hubs_pass_on_once, nodes_put_what_was_sent, runs_are_of_nodes,
    runs_deliver_only_what_was_sent, runs_deliver_what_was_sent, runs_have_logs,
    serving_gives_sessions, sessions_put_once, sessions_put_what_was_sent,
    stopped_runs_are_of_nodes, wires_are_links,
};
