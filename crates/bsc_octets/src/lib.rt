//! Octets, addresses, identities, and the first part of a BVLC-SC message.
//!
//! Start at `envelope` (what a message begins with) and `forwarding` (what the hub makes of it). Each
//! layout is defined once, in `specs/`, and what reads it and what writes it are held to that. This crate
//! stands on `byteorder` for numbers and on `uuid` for device identifiers.
#![tactic(auto)]

mod bounds;
pub mod control;
mod device_id;
mod envelope;
mod forwarding;
pub mod function;
mod identity;
mod laws;
mod no_memory;
mod octets;
pub mod results;
mod vmac;

pub use bounds::LEAST_BVLC;
pub use device_id::DeviceId;
pub use envelope::{Envelope, EnvelopeFault, read_envelope};
pub use forwarding::{destination, forwarded, has_route, is_broadcast, out_length};
pub use identity::{Identity, read_identity};
pub use laws::each_node_takes_64_octets;
pub use no_memory::NoMemory;
pub use octets::Octets;
pub use vmac::{Vmac, is_same, random48};
