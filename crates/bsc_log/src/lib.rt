//! An operator's log: a line on standard error for what becomes of each link of a hub.
//!
//! Start at `logged_link`: a `LoggedLink` is a link over another, and tells where what is said on it joins, is refused or ends.
//! `course` has what is known of a link so far, and `closing` what its last call says of it; neither tells anybody. What a link
//! tells is a `told`; it waits in `shared`, which all links of a hub have, until it is written with others, as a `batch`.
//! `logged_acceptor` makes such links of those that arrive, and has what waits written; `unlogged_dialer` makes some of those that
//! are dialled, which have no log, and `logging_of` says whether lines are wanted. Of a line `event` has what it tells, `line` what
//! stands in it, `writing` its text.
#![tactic(auto)]

mod asking;
mod batch;
mod closing;
mod course;
mod fields;
mod limit;
mod line;
mod link_log;
mod log_event;
mod log_record;
mod logged_acceptor;
mod logged_link;
mod logging;
mod nak;
mod reading;
mod shared;
mod stage;
mod stamp;
mod takeovers;
mod unlogged_dialer;
mod waiting;
mod wanted;
mod words;
mod writing;

pub use line::Line;
pub use log_event::{Cause, JoinRefusal, Limited, LogEvent, Turning};
pub use logged_acceptor::LoggedAcceptor;
pub use logged_link::LoggedLink;
pub use logging::Logging;
pub use nak::Nak;
pub use stamp::{Stamp, stamp_of};
pub use unlogged_dialer::UnloggedDialer;
pub use wanted::logging_of;
