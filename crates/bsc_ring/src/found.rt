//! What an outlet's loads find.
use bsc_history::End;

/// What one load in `take` found. Contracts speak of it, and no value is made.
pub enum Found {
    /// The End that the end word had, if any.
    Ending(Option<End>),
    /// How many items were pushed, by the tail word.
    Tail(u64),
}
