//! Networks of hubs and nodes that the commands `hub` and `node` ran: where each NPDU that a node delivered came from.
//!
//! Start at `specs/Networks.antt`; `laws` has what is proved.
#![tactic(auto)]

mod hub_runs;
mod laws;

pub use laws::{hubs_and_nodes_that_ran_deliver, what_ran_delivers_by_wires};
