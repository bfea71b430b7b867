//! The machine of a peer that initiates a connection (Annex AB, "Initiating Peer"), without input or output.
//!
//! Start at `specs/Steps.antt`: which step a machine makes at an event, by all events before it. `specs/Past.antt`
//! looks back over them. `initiating` has the calls, one for each event, and `step` what each of them answers. Whoever
//! holds the machine carries its steps out: it knows no link and no hub, and it takes no memory. The accepting
//! machine (`bsc_accept`) is made the same way; times, closings and waits are its.
#![tactic(auto)]

mod event;
mod initiating;
mod laws;
mod moving;
mod passing;
mod requests;
mod stage;
mod step;

pub use event::InitEvent;
pub use initiating::Initiating;
pub use laws::{heartbeats_are_put_once, messages_are_heard, requests_are_messages, ticks_close};
pub use step::InitStep;
