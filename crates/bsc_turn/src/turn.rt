//! The turn. Its calls stand in `making`, `entering`, `splitting` and `joining`.
ghost use Rattle.std.specs.Prelude.{◌≡◌, ◌≤◌, ◌^◌};

use crate::plays::TurnTable;
use bsc_history::Stands;

/// A lock for one state, whose passes see one history. It may be shared among threads.
#[derive(Drop)]
pub struct Turn<S: Stands> {
    pub(crate) table: TurnTable<S>,
    pub(crate) callers: u64,
    // The table has three words, and one slot for the state.
    ghost sized: { (table.shared.table_id.words ≡ 3) × (table.shared.table_id.slots ≡ 1) },
    ghost bounds: { (1 ≤ callers) × (callers ≤ 2 ^ 62) },
    // It is the number that the rule knows.
    ghost fixed: { table.shared.key.callers ≡ callers },
}
