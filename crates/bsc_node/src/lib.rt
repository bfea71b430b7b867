//! A BACnet/SC node without its sockets and clocks (Annex AB): events in, actions out. It has the plain data, and in
//! `specs/` what a node does, as a definition.
//!
//! Start at `specs/Node.antt`, and read the files that it stands on downwards; the README says in which order.
#![tactic(auto)]

mod action;
mod bounds;
mod delivered;
mod laws;
mod link_name;
mod node_event;
mod node_limits;
mod note;
mod timed_event;

pub use action::Action;
pub use bounds::RENEWALS;
pub use delivered::Delivered;
pub use laws::{
    broadcasts_keep_off_slots, delivers_what_came, draws_last, npdus_are_put_once, slots_keep_apart,
};
pub use link_name::LinkName;
pub use node_event::NodeEvent;
pub use node_limits::NodeLimits;
pub use note::Note;
pub use timed_event::TimedEvent;
