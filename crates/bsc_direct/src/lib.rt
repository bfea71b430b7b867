//! The slots of a node's direct connections: which are claimed, and with whom they are established (Annex AB, "Direct
//! Connections"), without input or output.
//!
//! Start at `specs/Slots.antt`: how the slots stand, by all that happened to them. `calls` has the calls, and `laws`
//! what holds of the established slots. Whoever holds a `Direct` dials and accepts, and tells it what comes of that.
//! `path` has the path of a message: the slot that is established for its destination, else the hub in use
//! (`specs/Paths.antt`).
#![tactic(auto)]

mod bounds;
mod call;
mod calls;
mod direct;
mod establish;
mod laws;
mod looking;
mod path;
mod places;
mod routes;
mod slot;
mod slots_full;

pub use bounds::SLOTS;
pub use call::SlotCall;
pub use direct::Direct;
pub use establish::Establish;
pub use laws::{
    a_node_has_64_slots, a_replaced_slot_stays_claimed, established_slots_are_apart,
    no_slot_is_established_for_the_broadcast,
};
pub use path::route;
pub use routes::Route;
pub use slots_full::SlotsFull;
