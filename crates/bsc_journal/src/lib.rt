//! Journals that can be audited: the line of each entry of a hub's history, written and read.
//!
//! Start at `specs/Lines.antt` of `bsc_lines`, which says what the line of an entry is, and at `specs/Journals.antt`,
//! which says which journals may be believed.
//! `entry_line` of `bsc_lines` writes the line of an entry, and `read_said` reads what a line of a journal says.
#![tactic(auto)]

mod bounds;
mod finding;
mod having;
mod journal_record;
mod laws;
mod read_calls;
mod read_replies;
mod reading;
mod saying;

pub use bounds::{MOST_IN_ALL, MOST_IN_LINE};
pub use bsc_lines::entry_line;
pub use finding::read_entry;
pub use journal_record::JournalRecord;
pub use laws::journals_have_2_to_the_28_octets;
pub use saying::read_said;
