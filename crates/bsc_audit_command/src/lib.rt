//! The command `audit`: what journals come to, and what it writes.
//!
//! `run_audit` audits journals that a source gives, and writes one line. `specs/Lines.antt` has the lines and their
//! statuses.
#![tactic(auto)]

mod command;
mod texts;

pub use command::run_audit;
