//! Reading an input in a thread of its own, line by line, for a program that goes on meanwhile.
//!
//! Start at `feeding`: it reads a source to its end, and puts each line into a ring, at whose other end `RingInbox` (`ring_inbox`)
//! is the inbox of the program. `cutting` cuts what was read into lines. Whoever takes the lines is roused by a `Rouser`.
#![tactic(auto)]

mod bounds;
mod cutter;
mod cutting;
mod feed_end;
mod feeding;
mod inbox;
mod line_feed;
mod ring_inbox;
mod rouser;

pub use bounds::MOST_KEPT;
pub use cutter::Cutter;
pub use feed_end::FeedEnd;
pub use feeding::feed_lines;
pub use inbox::{LineInbox, LiveInput, MemInbox, OptionalInbox, Taken};
pub use line_feed::LineFeed;
pub use ring_inbox::RingInbox;
pub use rouser::Rouser;
