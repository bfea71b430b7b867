//! The hub of one thread: each of its calls adds one legal entry to its history.
//!
//! Start at `specs/Standing.antt`, which says what it is for a desk to stand for a history, and at
//! `connecting`, `forwarding`, `broadcasting`, `leaving` and `stopping`, whose clauses say which entry a call
//! adds. The desk stores rows, counts and the inlets of outboxes, and no history; the outlets are their
//! receivers'. `directory` finds rows by address and by device, and `hints` says where to look first. `meeting`
//! has what one thread may say that has the desk and an outlet.
#![tactic(auto)]

mod broadcasting;
mod connecting;
mod copies;
mod desk;
mod directory;
mod fate;
mod forwarding;
mod hints;
mod leaving;
mod looking;
mod making;
mod meeting;
mod notes;
mod offering;
mod prepared;
mod pushing;
mod row;
mod rows;
mod standing;
mod stopping;
mod tally;

pub use broadcasting::{AllRefusal, AllReply};
pub use bsc_history::{About, Limits};
pub use bsc_ring::{Inlet, Outlet, Take, make};
pub use connecting::{NewRow, NoRow};
pub use desk::Desk;
pub use forwarding::OneReply;
pub use leaving::Gone;
pub use looking::HubStatus;
pub use prepared::{Prepared, prepare};
pub use row::Row;
