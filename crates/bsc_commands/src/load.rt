//! The command `load`: the workload on a hub of its own, and what it writes.
//!
//! `command` runs the workload and writes what it came to.

mod command;
mod texts;

pub use command::run_load;
