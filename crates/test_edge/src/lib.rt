//! Tests of what a hub and its nodes ask of the outside, `bsc_edge`: the objects in memory, with calls that fail, and the real
//! clock, files and threads; of an operator's log, `bsc_log`; and of the record
//! of the past, `bsc_past`.
//!
//! They stand in a crate of their own, since a crate's own tests have all of its functions proved a second time.
#![tactic(auto)]

#[cfg(test)]
mod edge;
#[cfg(test)]
mod lines;
#[cfg(test)]
mod past;
#[cfg(test)]
mod wanted;
