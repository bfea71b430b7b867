//! Tests of policies and of what is kept of a long input: what no file of `tests/` can show, as the program doesn't.
//!
//! They stand in a crate of their own, since a crate's own tests have all of its functions proved a second time.
#![tactic(auto)]

#[cfg(test)]
mod long_inputs;
#[cfg(test)]
mod policies;
