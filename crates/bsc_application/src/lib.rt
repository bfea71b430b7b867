//! Runs a node (Annex AB) for an application: requests come while it runs, in place of a script that is read before.
//!
//! Start at `application`, what an application is to its node, and `living`, a whole run. `taking` takes what is asked for before a
//! turn.
#![tactic(auto)]

mod application;
mod bounds;
mod laws;
mod live_terms;
mod living;
mod mem_application;
mod planned;
mod taking;
mod told_application;

pub use application::Application;
pub use bounds::MOST_REQUESTS;
pub use laws::takes_256_requests_at_most;
pub use live_terms::LiveTerms;
pub use living::run_application;
pub use mem_application::MemApplication;
pub use planned::Planned;
pub use told_application::ToldApplication;
