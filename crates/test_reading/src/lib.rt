//! Tests of what reads and writes, where the program can't show it: octets, header options and whole messages that are written
//! again, streams of which a read or a write fails, and octets that come in pieces.
//!
//! What the program shows stands in the rows of `tests/`, which cost nothing to prove. These stand in a crate of their own, since
//! a crate's own tests have all of its functions proved a second time. Each module is named for the crate that it tests, or for
//! the texts of errors.
#![tactic(auto)]

#[cfg(test)]
mod frame;
#[cfg(test)]
mod journals;
#[cfg(test)]
mod octets;
#[cfg(test)]
mod options;
#[cfg(test)]
mod outside;
#[cfg(test)]
mod player;
#[cfg(test)]
mod text;
#[cfg(test)]
mod texts;
