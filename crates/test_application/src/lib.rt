//! Tests of a node that is run for an application.
//!
//! They stand in a crate of their own, since a crate's own tests have all of its functions proved a second time.
#![tactic(auto)]

#[cfg(test)]
mod echo;
#[cfg(test)]
mod live_lines;
#[cfg(test)]
mod living;
