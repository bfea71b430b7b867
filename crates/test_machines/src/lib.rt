//! Tests of the machines of connections and of the parts of a node.
//!
//! They stand in a crate of their own, since a crate's own tests have all of its functions proved a second time. Each
//! module is named for the crate that it tests. `messages` and `peers` have what several of them say messages, steps
//! and nodes by.
#![tactic(auto)]

#[cfg(test)]
mod accept;
#[cfg(test)]
mod connector;
#[cfg(test)]
mod direct;
#[cfg(test)]
mod initiate;
#[cfg(test)]
mod messages;
#[cfg(test)]
mod peers;
#[cfg(test)]
mod resolve;
