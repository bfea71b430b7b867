//! One look at what may ask for the stop of a hub.
use bsc_history::Entry;
use std::collections::LinkedList;

/// One look at what may ask for the stop of a hub. Contracts speak of it, and no value is made.
pub struct SessionLook {
    /// Whether it asked.
    pub asks: bool,
    /// All that the hub's own pass had entered by then, oldest first.
    pub entered: LinkedList<Entry>,
}
