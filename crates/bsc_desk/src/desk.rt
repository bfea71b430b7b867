//! What the hub of one thread keeps.
ghost use Rattle.std.specs.Prelude.{◌≤◌, ◌+◌, vec_len, vec_capacity};
ghost use Rattle.bsc_desk.specs.Directories.{AreFiled};
ghost use Rattle.bsc_desk.specs.Bounds.{AreLimits, stops_left};

use crate::directory::Directory;
use crate::row::Row;
use crate::tally::Tally;
use bsc_history::About;

/// The hub of one thread. It is made by `make`; `connect`, `forward_one`, `forward_all`, `leave`, `stop` and
/// `count` add an entry each to its history; `meet` adds none. What the desk pushes at its inlets is taken at
/// their outlets, which may be in other threads.
#[derive(Drop)]
pub struct Desk {
    /// The hub's own identity, and its limits.
    pub(crate) about: About,
    /// The place of the entry that stopped the hub.
    pub(crate) stopped_at: Option<u64>,
    /// How many entries were made, and what they count.
    pub(crate) tally: Tally,
    /// The connections that haven't left, in the order of joining, live or ended.
    pub(crate) rows: Vec<Row>,
    /// Their connections, by which a row is found.
    pub(crate) directory: Directory,
    ghost in_range: { AreLimits about.limits },
    ghost few_rows: { vec_len rows ≤ about.limits.rows },
    // A row is pushed and entered without memory.
    ghost room: { about.limits.rows ≤ vec_capacity rows },
    ghost address_room: { about.limits.rows ≤ vec_capacity directory.by_address },
    ghost device_room: { about.limits.rows ≤ vec_capacity directory.by_device },
    ghost filed: { AreFiled rows.items tally.counts.joined directory },
    // Only leaving and stopping are entries past the limit, one for each row and one for the hub.
    ghost few_calls: { tally.made + vec_len rows + stops_left stopped_at ≤ about.limits.calls + about.limits.rows + 1 },
}
