//! What the callers of a hub note of what they did, a line each, and the journals that take it.
//!
//! Start at `specs/Notes/Notes.antt`: a note, its line, and what a journal holds of notes. `noted` has what is handed in, and
//! `journal` where it goes: `NoJournal` drops it, and a sink takes its line. `octets` says that its octets are octets.

mod journal;
mod noted;
mod octets;
mod writing;

pub use journal::{Journal, NoJournal};
pub use noted::{Made, Noted};
pub use writing::line_of;
