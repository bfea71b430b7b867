//! Laws of the scripts of networks, in words of a network and not of lines: a script is of its steps, and what they deliver was
//! sent. There is no code in this crate.
//!
//! Start at `src/laws.rt` and `specs/Laws.antt`. What a script comes to is `simulate_of` of `bsc_network_script`, and what its
//! network delivers is said by the laws of `bsc_network_laws`.
#![tactic(auto)]

mod laws;

pub use laws::{a_script_delivers_what_was_sent, a_script_is_of_its_steps};
