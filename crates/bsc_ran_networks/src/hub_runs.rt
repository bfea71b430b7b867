//! The run of a hub that was served, as the theorem of networks takes it.
//!
//! Start at `specs/HubRuns/Runs.antt`, which says which run of a hub one of serving it is, and `specs/HubRuns/Commands.antt`, which says so of the
//! command `hub`; `specs/HubRuns/Networks.antt` has networks of such hubs, and `laws` what is proved.

mod laws;

pub use laws::{hub_runs_are, hubs_ran, hubs_that_ran_deliver};
