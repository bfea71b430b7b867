//! Why a run ended with a fault, for who reads standard error.
//!
//! Start at `telling`: `tell` writes one line on standard error, by what the words ask for and what was heard of the run by the
//! recorders of `bsc_why`. Which rule a refused line breaks is found by the crate of its language (`refused_line`), which
//! of settings and of words is wrong by theirs. `links` plays the lines of a network's script once more, to see whether a link
//! is there. `StderrRefusals` tells of each line that is refused as a node runs, and `why_refused` says why.
#![tactic(auto)]

mod called;
mod cutting;
mod format;
mod links;
mod recorders;
mod refusal_cause;
mod refused_line;
mod stderr_refusals;
mod telling;

pub use called::name_in;
pub use format::Format;
pub use recorders::{
    DiskNote, KeptFiles, KeptSource, NotedAcceptor, NotedDisk, NotedSink, ToldFiles,
};
pub use refusal_cause::{RefusalCause, why_refused};
pub use refused_line::{Seen, why_form, why_line};
pub use stderr_refusals::StderrRefusals;
pub use telling::{Heard, tell};
