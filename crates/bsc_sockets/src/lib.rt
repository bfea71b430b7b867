//! The links of the program over sockets: its acceptor, its dialer, and what it waits by.
//!
//! `listener` has the acceptor, a gate that is made where it is bound, and then tells of its port on standard error; `numbers` what it counts; `links` the type
//! of the program's links, which may be dialled or accepted, and of which a log is told where the environment asks for one, and the
//! dialer; `boxed_link` and `boxing_dialer` give each link memory of its own; and `waiting` is the waiter, by which a node waits for
//! all of its links. `live_inbox` has the lines that another thread reads, for which it waits too. `main` of `bsc_program` hands them to the commands, which take any.
#![tactic(auto)]

mod boxed_link;
mod boxing_dialer;
mod links;
mod listener;
mod live_inbox;
mod numbers;
mod waiting;

pub use boxed_link::BoxedLink;
pub use boxing_dialer::BoxingDialer;
pub use links::{RealDialer, RealLink, real_dialer};
pub use listener::Listener;
pub use live_inbox::{LineRouser, LiveInbox};
pub use numbers::Numbers;
pub use waiting::{RealWaiter, Shared};
