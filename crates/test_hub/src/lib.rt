//! Tests of a hub that threads share, from its history up to the loads that run on it: `history`, `ring`, `turn`, `hub`,
//! `load` and `storm` test the crates of these names.
//!
//! They stand in a crate of their own, since a crate's own tests have all of its functions proved a second time. `hub`
//! makes the hubs of the tests. `crossing` asks what may cross threads.
#![tactic(auto)]

#[cfg(test)]
mod crossing;
#[cfg(test)]
mod history;
#[cfg(test)]
mod hub;
#[cfg(test)]
mod load;
#[cfg(test)]
mod ring;
#[cfg(test)]
mod storm;
#[cfg(test)]
mod turn;
