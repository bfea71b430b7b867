//! Sockets that wait for their octets and for a wake at once.
//!
//! Start at `stream`: a `LiveStream` reads and writes a socket that doesn't block. While that waits (`socket`) it stands in one
//! `poll`, which the socket or its `Waker` ends; `held` has what is written and hasn't left, over any wire. `Wakers` finds the bell of a connection, and `LivePatience` is what a
//! link sets the waits and rings the bells by; `DeferredWakes` are the rings that a link puts off. At a `Watch` many streams
//! are waited for together; a `SeatWaker` ends that wait from another thread. A stream's socket may end at `Lingering`, so that nothing that was written is lost to a
//! reset. No clause says when a wait ends: the system holds that.
#![tactic(auto)]

mod deferred_wakes;
mod held;
mod lingering;
mod moment;
mod patience;
mod raw;
mod seat_waker;
mod socket;
mod stream;
mod waker;
mod wakers;
mod watch;
mod wire;

pub use deferred_wakes::DeferredWakes;
pub use lingering::{LINGER_MS, LOOK_MS, Lingering};
pub use moment::Moment;
pub use patience::LivePatience;
pub use seat_waker::SeatWaker;
pub use stream::LiveStream;
pub use waker::Waker;
pub use wakers::Wakers;
pub use watch::{Seat, Watch, Watcher};
