//! A node that is asked by lines as they come: the lines of a script, without their times, from an inbox.
//!
//! Start at `live_lines`: `LiveLines` is the application whose requests are those of an inbox's lines. `line_requests` has how
//! these come of the lines, and `refusals` who is told of a line that is refused.
#![tactic(auto)]

mod bounds;
mod counting;
mod heard;
mod line_requests;
mod live_lines;
mod mem_refusals;
mod reading;
mod refusal;
mod refusals;
mod saying;

pub use bounds::{MOST_COUNTED, MOST_SKIPPED};
pub use line_requests::LineRequests;
pub use live_lines::LiveLines;
pub use mem_refusals::MemRefusals;
pub use refusal::{Refusal, Refused};
pub use refusals::Refusals;
