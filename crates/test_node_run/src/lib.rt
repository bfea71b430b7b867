//! Tests of a node that is played: nodes that are run by files of settings and of a script, over links, a clock and random
//! words in memory.
//!
//! They stand in a crate of their own, since a crate's own tests have all of its functions proved a second time. `rows` has
//! the runs, `row` says what one is, and `playing` plays it. `watched` notes what a run does outside. `words` draws random
//! words from a source of known octets.
#![tactic(auto)]

#[cfg(test)]
mod outside;
#[cfg(test)]
mod play_log;
#[cfg(test)]
mod playing;
#[cfg(test)]
mod row;
#[cfg(test)]
mod rows;
#[cfg(test)]
mod watched;
#[cfg(test)]
mod words;
