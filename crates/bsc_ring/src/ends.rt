//! The two ends of a ring. Their calls stand in `pushing`, `taking` and `meeting`.
ghost use Rattle.std.specs.Prelude.{◌≡◌, ◌%◌, ◌<◌, ◌≤◌, length};
ghost use Rattle.std.specs.Arc.{arc_value};
ghost use Rattle.bsc_history.specs.declared.limits.TheConstants.{MOST_OUTBOX};
ghost use Rattle.bsc_ring.specs.Lists.{newest};
ghost use Rattle.bsc_ring.specs.Effects.{InletRests, OutletRests, view_in};

use crate::plays::{RingSeat, RingTable};
use std::sync::Arc;

/// The end that pushes. It may be sent to another thread, and dropped.
#[derive(Drop)]
pub struct Inlet {
    pub(crate) table: Arc<RingTable>,
    pub(crate) seat: RingSeat,
    pub(crate) capacity: u64,
    pub(crate) sent: u64,
    pub(crate) slot: u64,
    // The seat is one of this table.
    ghost placed: { seat.table_id ≡ (arc_value table).shared.table_id },
    // The table has three words, and a slot for each item of the capacity.
    ghost sized: { (seat.table_id.words ≡ 3) × (seat.table_id.slots ≡ capacity) },
    ghost bounds: { (2 ≤ capacity) × (capacity ≤ MOST_OUTBOX) },
    // Between two calls no slot is in hand.
    ghost rests: { InletRests seat.me },
    // `sent` counts the items that were pushed.
    ghost counts: { sent ≡ length (view_in seat.me).pushed },
    // `slot` is the slot of the next item.
    ghost at: { (slot ≡ sent % capacity) × (slot < capacity) },
    // At least as many items are known to be taken as the newest load found.
    ghost newest: { newest (view_in seat.me).loads ≤ (view_in seat.me).least },
}

/// The end that takes. It may be sent to another thread, and dropped.
#[derive(Drop)]
pub struct Outlet {
    pub(crate) table: Arc<RingTable>,
    pub(crate) seat: RingSeat,
    pub(crate) capacity: u64,
    pub(crate) taken: u64,
    pub(crate) slot: u64,
    pub(crate) empties: u64,
    // The seat is one of this table.
    ghost placed: { seat.table_id ≡ (arc_value table).shared.table_id },
    // The table has three words, and a slot for each item of the capacity.
    ghost sized: { (seat.table_id.words ≡ 3) × (seat.table_id.slots ≡ capacity) },
    ghost bounds: { (2 ≤ capacity) × (capacity ≤ MOST_OUTBOX) },
    // Between two calls no slot is in hand.
    ghost rests: { OutletRests seat.me },
    // `taken` counts the items that were given.
    ghost counts: { taken ≡ length (view_in seat.me).given },
    // `slot` is the slot of the next item.
    ghost at: { (slot ≡ taken % capacity) × (slot < capacity) },
}
