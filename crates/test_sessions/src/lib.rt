//! Tests of sessions, `bsc_session`, and of a hub that is served, `bsc_serve`, over links in memory.
//!
//! They stand in a crate of their own, since a crate's own tests have all of its functions proved a second time. `peers` has
//! the hub and the devices that all are with, and `scene` the links of a hub that is served.
#![tactic(auto)]

#[cfg(test)]
mod books;
#[cfg(test)]
mod hostile;
#[cfg(test)]
mod peers;
#[cfg(test)]
mod scene;
#[cfg(test)]
mod serve;
#[cfg(test)]
mod session;
