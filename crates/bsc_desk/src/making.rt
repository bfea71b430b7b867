//! Making desks.
#![tactic(auto)]

ghost use Rattle.std.specs.Prelude.{◌≡◌, ◌≤◌, List, [], length, IfOk};
ghost use Rattle.bsc_history.specs.declared.mark.Stamped.{Stamped};
ghost use Rattle.bsc_desk.specs.Standing.{DeskStands};

use crate::desk::Desk;
use crate::directory::Directory;
use crate::tally::Tally;
use bsc_history::{About, Limits, MOST_CALLERS, MOST_CALLS, MOST_OUTBOX, MOST_ROWS};
use bsc_octets::{Identity, NoMemory};
use std::alloc::Global;

impl Desk {
    /// A desk with no entries. All room for rows is taken now: 1 to `MOST_ROWS` rows, outboxes of 2
    /// to `MOST_OUTBOX` frames, 1 to `MOST_CALLS` calls, 1 to `MOST_CALLERS` callers.
    pub fn make(alloc: Global, hub: Identity, limits: Limits) -> Result<Desk, NoMemory>
        requires some_rows { 1 ≤ limits.rows }
        requires few_rows { limits.rows ≤ MOST_ROWS }
        requires some_room { 2 ≤ limits.outbox }
        requires little_room { limits.outbox ≤ MOST_OUTBOX }
        requires some_calls { 1 ≤ limits.calls }
        requires few_calls { limits.calls ≤ MOST_CALLS }
        requires some_callers { 1 ≤ limits.callers }
        requires few_callers { limits.callers ≤ MOST_CALLERS }
        ensures stands { IfOk result (λ d. DeskStands d []) }
        ensures about { IfOk result (λ d. d.about ≡ record { hub = hub; limits = limits }) }
    {
        Ok(Desk {
            about: About { hub, limits },
            stopped_at: None,
            tally: Tally::new(),
            rows: Vec::with_capacity(alloc, limits.rows as usize)?,
            directory: Directory::make(alloc, limits.rows as usize)?,
        })
    }

    /// How many entries were made.
    pub fn made(&self) -> u64
        ensures { (S : List Stamped) → DeskStands self.now S → result ≡ length S }
    {
        self.tally.made
    }
}
