//! The lines of journals, as they are written: of the entries of a hub's history, and of what a policy denies.
//!
//! Start at `specs/Lines.antt`: what the line of an entry is. `specs/Replies.antt` has the words of replies, which scripts
//! write too, and `specs/Denials.antt` the line of a denial. `entry_line` and `put_denial` write them; the other calls put
//! their parts at the end of a text, for those who have an entry in parts.
#![tactic(auto)]

mod calls;
mod denial;
mod denying;
mod replies;
mod texts;
mod writing;

pub use calls::{put_connect, put_forward, put_leave, put_looks};
pub use denial::Denial;
pub use denying::put_denial;
pub use replies::{
    put_counts, put_gone, put_joined, put_list, put_lists, put_not_current, put_refusal, put_reply,
};
pub use texts::{put_hex, put_number, put_numbered, put_then, put_words};
pub use writing::{entry_line, put_entry};
