//! What a seat at the ring's table knows.
use crate::found::Found;
use bsc_history::End;
use bsc_octets::Octets;
use std::collections::LinkedList;

/// What a seat knows. Contracts speak of it, and no value is made.
pub struct View {
    /// It is the seat that pushes.
    pub inlet: bool,
    /// It is the seat that takes.
    pub outlet: bool,
    /// The items that the inlet pushed, oldest first.
    pub pushed: LinkedList<Octets>,
    /// What the inlet's pushes found in the head word, in order.
    pub loads: LinkedList<u64>,
    /// The End that the inlet set.
    pub ended: Option<End>,
    /// The inlet holds the slot at the tail.
    pub writing: bool,
    /// The items that the outlet gave, oldest first.
    pub given: LinkedList<Octets>,
    /// What the outlet's takes found, in order.
    pub found: LinkedList<Found>,
    /// The outlet holds the slot at the head.
    pub reading: bool,
    /// At least so many items were taken.
    pub least: u64,
    /// At least these items were pushed.
    pub known: LinkedList<Octets>,
    /// No item but the known ones will be pushed.
    pub whole: bool,
    /// This End was set.
    pub heard: Option<End>,
}
