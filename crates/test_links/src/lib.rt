//! Tests of streams over sockets that wait and are woken, `bsc_live`, over loopback; of links over WebSocket, `bsc_ws`, over
//! streams in memory; and of gates, `bsc_gate`, over loopback.
//!
//! They stand in a crate of their own, since a crate's own tests have all of its functions proved a second time. `live` has
//! the two ends of a connection that most tests of streams are made with, and what comes of a read.
#![tactic(auto)]

#[cfg(test)]
mod gate;
#[cfg(test)]
mod holding;
#[cfg(test)]
mod lingering;
#[cfg(test)]
mod live;
#[cfg(test)]
mod telling;
#[cfg(test)]
mod watch;
#[cfg(test)]
mod ws;
