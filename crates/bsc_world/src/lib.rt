//! The code of a BACnet/SC network (Annex AB) in memory: hubs and nodes, joined by links, played step by step.
//!
//! What it does is the definition of `bsc_network`. Start at `World`, in `src/world.rt`, and at its call `step`, in
//! `src/stepping.rt`.
#![tactic(auto)]

mod adding;
mod arriving;
mod asked;
mod changes;
mod dialled_list;
mod dialling;
mod doing;
mod hub_calls;
mod hub_sides;
mod kept_hub;
mod kept_link;
mod kept_node;
mod laws;
mod making;
mod node_events;
mod node_sides;
mod passed;
mod refusals;
mod settings;
mod step_done;
mod stepping;
mod taking;
mod whole;
mod world;
mod world_deliveries;

pub use dialled_list::DialledList;
pub use laws::hub_sides_follow_ports;
pub use step_done::StepDone;
pub use world::World;
pub use world_deliveries::WorldDeliveries;
