//! A hub's port: the hub's side of one connection, without input or output.
//!
//! Whoever holds a port hands in each message and each event, with the time, and carries out what the port answers: send
//! these octets, close the link, ask the hub to let this device join, give this message to the hub. A port has no link, no
//! clock, no outbox, no journal and no hub.
//!
//! Start at `specs/Actions.antt`: what a port does at a message and at any other event, by all that its machine was told
//! before. `specs/Guarding.antt` says what a policy denies. `port` has the calls.
#![tactic(auto)]

mod action;
mod event;
mod guarding;
mod output;
mod port;

pub use action::PortAction;
pub use event::PortEvent;
pub use guarding::{denied_connect, denied_message, denied_pair};
pub use output::Output;
pub use port::Port;
