//! The ring's table: its rule, and what each kind of step does to the seat that makes it.
//!
//! `words` names the table's words. It has a slot for each item of the capacity.
use crate::view::View;
use atomic_table::{Join, Play, Seat, Split, Table, TableRule};
use bsc_octets::Octets;
use std::alloc::Global;

/// A seat at the ring's table.
pub type RingSeat = Seat<Option<Octets>, View>;

/// The table that the two ends share.
pub type RingTable = Table<Option<Octets>, View, (), RingRule, Global>;

/// The rule that each step on the table keeps.
pub struct RingRule;

impl TableRule<Option<Octets>, View, ()> for RingRule {
    ghost use Rattle.bsc_ring.specs.Rule.{RingKept, first_view};

    ghost holds = { λ _. RingKept };

    ghost first = { λ _. first_view };
}

/// The inlet loads the head, and takes the slot at the tail unless the ring is full.
pub struct LoadHead;

impl Play<Option<Octets>, View> for LoadHead {
    ghost use Rattle.bsc_ring.specs.Effects.{LoadsHead};

    ghost then = { LoadsHead };
}

/// The inlet stores the tail, and gives that slot back with an item in it.
pub struct StoreTail;

impl Play<Option<Octets>, View> for StoreTail {
    ghost use Rattle.bsc_ring.specs.Effects.{StoresTail};

    ghost then = { StoresTail };
}

/// The outlet loads the end word.
pub struct ReadEnd;

impl Play<Option<Octets>, View> for ReadEnd {
    ghost use Rattle.bsc_ring.specs.Effects.{LoadsEnd};

    ghost then = { LoadsEnd };
}

/// The outlet loads the tail, and takes the slot at the head unless each item is taken.
pub struct LoadTail;

impl Play<Option<Octets>, View> for LoadTail {
    ghost use Rattle.bsc_ring.specs.Effects.{LoadsTail};

    ghost then = { LoadsTail };
}

/// The outlet stores the head, and gives that slot back empty.
pub struct StoreHead;

impl Play<Option<Octets>, View> for StoreHead {
    ghost use Rattle.bsc_ring.specs.Effects.{StoresHead};

    ghost then = { StoresHead };
}

/// The inlet stores the end word.
pub struct StoreEnd;

impl Play<Option<Octets>, View> for StoreEnd {
    ghost use Rattle.bsc_ring.specs.Effects.{StoresEnd};

    ghost then = { StoresEnd };
}

/// A load that changes nothing. What the rule says of the seat's own view is known after it.
pub struct Confirm;

impl Play<Option<Octets>, View> for Confirm {
    ghost use Rattle.bsc_ring.specs.Effects.{Confirms};

    ghost then = { Confirms };
}

/// The table's first seat becomes an inlet's and an outlet's.
pub struct IntoEnds;

impl Split<View> for IntoEnds {
    ghost use Rattle.bsc_ring.specs.Rule.{inlet_part, outlet_part};

    ghost left = { inlet_part };

    ghost right = { outlet_part };
}

/// A new seat begins, with a note of what the inlet knows.
pub struct InletNote;

impl Split<View> for InletNote {
    ghost use Rattle.bsc_ring.specs.Effects.{inlet_note};

    ghost left = { λ v. v };

    ghost right = { inlet_note };
}

/// A new seat begins, with a note of what the outlet knows.
pub struct OutletNote;

impl Split<View> for OutletNote {
    ghost use Rattle.bsc_ring.specs.Effects.{outlet_note};

    ghost left = { λ v. v };

    ghost right = { outlet_note };
}

/// An outlet's note ends, and the inlet keeps what it said.
pub struct InletHears;

impl Join<View> for InletHears {
    ghost use Rattle.bsc_ring.specs.Effects.{inlet_hears, spent_view};

    ghost both = { inlet_hears };

    ghost spent = { spent_view };
}

/// An inlet's note ends, and the outlet keeps what it said.
pub struct OutletHears;

impl Join<View> for OutletHears {
    ghost use Rattle.bsc_ring.specs.Effects.{outlet_hears, spent_view};

    ghost both = { outlet_hears };

    ghost spent = { spent_view };
}
