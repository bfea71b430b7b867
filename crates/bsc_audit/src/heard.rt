//! What the lines came to that were heard so far.
ghost use Rattle.std.specs.Prelude.{◌≤◌};
ghost use Rattle.bsc_journal.specs.declared.bounds.TheConstants.{MOST_IN_ALL};

use crate::places::Spot;
use bsc_history::About;

/// What the lines came to that were heard so far.
#[derive(Drop)]
pub(crate) struct Heard {
    /// Where the next line begins: how many octets the lines had, with their ends.
    pub(crate) at: usize,
    /// How many lines there were.
    pub(crate) lines: u64,
    /// How many of them say a hub.
    pub(crate) hubs: u64,
    /// The hub of the last of these.
    pub(crate) about: Option<About>,
    /// Where the line of each entry stands.
    pub(crate) spots: Vec<Spot>,
    ghost in_journal: { at ≤ MOST_IN_ALL },
    ghost few_lines: { lines ≤ at },
    ghost few_hubs: { hubs ≤ lines },
}
