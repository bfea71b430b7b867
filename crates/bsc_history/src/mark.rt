//! Marks, by which contracts tell which outbox a Connect was given.
use crate::entry::Entry;
use std::collections::LinkedList;

/// The name of an outbox, for contracts alone: no value of it is made.
pub struct Mark {
    pub words: u64,
    pub slots: u64,
    pub views_name: u64,
    pub atom: u64,
    pub block: u64,
    pub offset: u64,
    pub slot_names: LinkedList<u64>,
}

/// An entry, with the mark of the inlet that its Connect handed in, where it joined. No value of it is made.
pub struct Stamped {
    pub entry: Entry,
    pub mark: Option<Mark>,
}
