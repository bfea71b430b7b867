//! What a BACnet/SC network (Annex AB) in memory does: hubs and nodes, joined by links, step by step. A definition, and the
//! plain data that it speaks of; the code that does it is `bsc_world`.
//!
//! Start at `specs/Networks.antt`, and read the files that it stands on upwards.
#![tactic(auto)]

mod arrival;
mod dialled;
mod hold;
mod laws;
mod limits;
mod parcel;
mod step_refusal;
mod target;
mod timed_step;
mod way;
mod world_delivery;
mod world_step;

pub use arrival::Arrival;
pub use dialled::Dialled;
pub use hold::Hold;
pub use laws::{a_network_has_64_nodes, nodes_wait_2_to_30_seconds};
pub use limits::{GREATEST_WAIT_MS, LEAST_WAIT_MS, LINKS, NODES, STEPS};
pub use parcel::{Content, Parcel};
pub use step_refusal::StepRefusal;
pub use target::Target;
pub use timed_step::TimedStep;
pub use way::Way;
pub use world_delivery::WorldDelivery;
pub use world_step::WorldStep;
