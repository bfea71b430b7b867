//! Where the lines of an input wait until a program takes them.
//!
//! Start at `inbox`: a `LineInbox` answers at once whether a line is there, and tells all that was taken of it. `LiveInput` is one
//! that tells whether its input has failed. `MemInbox` is one in memory, and `OptionalInbox` one that may not be there.

mod inbox;
mod live_input;
mod mem_inbox;
mod optional_inbox;
mod taken;

pub use inbox::LineInbox;
pub use live_input::LiveInput;
pub use mem_inbox::MemInbox;
pub use optional_inbox::OptionalInbox;
pub use taken::Taken;
