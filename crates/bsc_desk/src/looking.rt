//! How the hub is doing, which is told without an entry.
#![tactic(auto)]

ghost use Rattle.std.specs.Prelude.{◌≡◌, ℕ, List, filter, length, vec_len, vec_capacity};
ghost use Rattle.bsc_history.specs.declared.mark.Stamped.{Stamped};
ghost use Rattle.bsc_history.specs.Marks.{entries};
ghost use Rattle.bsc_desk.specs.Changes.{EachBecomes, Rests};
ghost use Rattle.bsc_desk.specs.Live.{is_open};
ghost use Rattle.bsc_desk.specs.Looking.{IsStatusOf};
ghost use Rattle.bsc_desk.specs.Rows.{known_of};
ghost use Rattle.bsc_desk.specs.Standing.{DeskStands};

use crate::desk::Desk;
use crate::row::Row;
use bsc_history::Counts;

/// How a hub is doing.
#[derive(Clone, Copy, Debug, PartialEq, Eq)]
pub struct HubStatus {
    /// What it has counted.
    pub counts: Counts,
    /// How many connections are live.
    pub connections: u64,
    /// How many connections haven't left: each takes a row.
    pub rows: u64,
    /// How many frames wait in the outboxes of all rows, as one load of each outbox finds it. Frames are taken meanwhile.
    pub waiting: u64,
}

/// How many connections are live, of these rows.
fn count_open(rows: &[Row]) -> u64
    ensures { result ≡ length (filter is_open rows.now) }
{
    let mut live = 0_u64;
    for row in rows.iter() {
        if row.is_open() {
            live += 1;
        }
    }
    live
}

impl Row {
    /// How many frames wait in the outbox, as one load finds it.
    pub(crate) fn waiting(&mut self) -> u64
        ensures { Rests self.old self.new }
    {
        self.inlet.waiting()
    }
}

/// How many frames wait in the outboxes of these rows.
fn count_waiting(rows: &mut [Row]) -> u64
    ensures { EachBecomes Rests rows.old rows.new }
{
    let mut waiting = 0_u64;
    for row in rows.iter_mut() {
        let more = row.waiting();
        waiting = waiting.saturating_add(more);
    }
    waiting
}

/// The same of a vector of rows.
fn all_waiting(rows: &mut Vec<Row>) -> u64
    ensures items { EachBecomes Rests rows.old.items rows.new.items }
    ensures len { vec_len rows.new ≡ vec_len rows.old }
    ensures capacity { vec_capacity rows.new ≡ vec_capacity rows.old }
{
    count_waiting(rows.as_mut_slice())
}

impl Desk {
    /// How the hub is doing. No entry is made, and no memory is taken. The outboxes are looked at, but no later push
    /// knows of it.
    pub fn status(&mut self) -> HubStatus
        ensures so { (S : List Stamped) → DeskStands self.old S → IsStatusOf (entries S) result }
        ensures stands { (S : List Stamped) → DeskStands self.old S → DeskStands self.new S }
        ensures about { self.new.about ≡ self.old.about }
        ensures known { (c : ℕ) → known_of self.new c ≡ known_of self.old c }
    {
        let counts = self.tally.counts;
        let taken = self.rows.as_slice();
        let connections = count_open(taken);
        let rows = taken.len() as u64;
        let waiting = all_waiting(&mut self.rows);
        HubStatus {
            counts,
            connections,
            rows,
            waiting,
        }
    }
}
