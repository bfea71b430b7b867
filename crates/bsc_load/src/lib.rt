//! The workload of a hub: workers that each join twice, forward a thousand unicasts to themselves, and leave.
//!
//! Start at `specs/Workers.antt`, which says what a worker asks of a hub, and `specs/Load.antt`, which says what
//! `load_on` says by its answer. `worker` has what one worker does, `passes` gives each a pass and a thread and joins
//! them, `workload` has the whole, and `loading` makes a hub for it. `laws` has what follows
//! of the counts.
#![tactic(auto)]

mod bounds;
mod ends;
mod frames;
mod jobs;
mod laws;
mod loading;
mod passes;
mod peers;
mod storm;
mod taking;
mod worker;
mod workload;

pub use bounds::{OUTBOX, ROWS, WORKERS};
pub use ends::{LoadEnd, LoadStop};
pub use laws::{appended_is_sent, the_hub_has_1024_rows};
pub use loading::load;
pub use storm::{StormEnd, storm_on};
pub use workload::load_on;
