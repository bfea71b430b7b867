//! Plays scripts of a whole BACnet/SC network (Annex AB): a script says which hubs and nodes there are and which steps are
//! made, and what is written is which links were dialled and what was delivered.
//!
//! What a script comes to is `simulate_of` of `bsc_network_script`: start there. What a step does in the network, and which is
//! refused, are definitions of `bsc_network`. `simulate` (`src/simulating.rt`) plays a script; the loop that reads, cuts lines,
//! collects text and writes it is `play_lines` of `bsc_player`.
#![tactic(auto)]

mod carrying;
mod looking;
mod simulating;
mod simulation;
mod texts;

pub use bsc_player::PlayEnd;
pub use simulating::simulate;
