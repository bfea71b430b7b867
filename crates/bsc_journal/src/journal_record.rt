//! What a line of a journal says.
use bsc_history::{About, Entry};

/// What a line of a journal says.
#[derive(Debug, Drop)]
pub enum JournalRecord {
    /// The hub whose history the journals tell.
    Hub(About),
    /// The entry at a place of that history.
    Entry { place: u64, entry: Entry },
    /// Something that a policy denied, which is passed over.
    Denial,
}
