//! What stands for a history.
ghost use Rattle.std.specs.Prelude.{◌≤◌, ◌*◌, ◌^◌, vec_len, vec_capacity, nat_le, IsTrue};
ghost use Rattle.std.specs.List.{list_all};
ghost use Rattle.bsc_legality.specs.Bounds.{AreAtMost};

use crate::row::Row;
use bsc_history::{About, Counts};

/// What stands for a history, to decide whether it is still legal with an entry more. It has a row for each
/// connection that hasn't left, and nothing for an entry.
#[derive(Drop)]
pub struct Legality {
    pub(crate) about: About,
    /// Whether the hub has stopped.
    pub(crate) stopped: bool,
    /// How many entries the history has.
    pub(crate) entries: u64,
    /// What they count.
    pub(crate) counts: Counts,
    /// The connections that haven't left, in the order of joining.
    pub(crate) rows: Vec<Row>,
    // A row is pushed without memory.
    ghost room: { about.limits.rows ≤ vec_capacity rows },
    ghost few: { entries ≤ 2 ^ 31 },
    ghost few_rows: { vec_len rows ≤ entries },
    ghost few_frames: { IsTrue (list_all (λ r. nat_le r.entered entries) rows.items) },
    // An entry counts no more of a kind than there are rows.
    ghost bounded: { AreAtMost counts (entries * 2 ^ 31) },
}
