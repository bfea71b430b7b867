//! A ring begins.
ghost use Rattle.std.specs.Prelude.{◌≡◌, ◌≤◌, [], length, IfOk, None, false};
ghost use Rattle.bsc_ring.specs.Ends.{IsNewInlet, IsNewOutlet, capacity_of, inlet_mark, outlet_mark};

use crate::ends::{Inlet, Outlet};
use crate::steps::lay_out;
use bsc_history::MOST_OUTBOX;
use bsc_octets::NoMemory;
use std::alloc::Global;
use std::sync::Arc;

/// The two ends of a new ring, which holds up to `capacity` items.
#[tactic(auto, using(crate::proofs::Counting::newest_none))]
pub fn make(alloc: Global, capacity: u32) -> Result<(Inlet, Outlet), NoMemory>
    requires { (2 ≤ capacity) × (capacity ≤ MOST_OUTBOX) }
    ensures mark { IfOk result (λ (inlet, outlet). inlet_mark inlet ≡ outlet_mark outlet) }
    ensures capacity { IfOk result (λ (inlet, _). capacity_of inlet ≡ capacity) }
    ensures inlet { IfOk result (λ (inlet, _). IsNewInlet inlet) }
    ensures outlet { IfOk result (λ (_, outlet). IsNewOutlet outlet) }
{
    let (table, inlet, outlet) = lay_out(alloc, capacity)?;
    let table = Arc::new(alloc, table)?;
    let other = Arc::try_clone(&table)?;
    let inlet = Inlet {
        table,
        seat: inlet,
        capacity: capacity as u64,
        sent: 0,
        slot: 0,
    };
    let outlet = Outlet {
        table: other,
        seat: outlet,
        capacity: capacity as u64,
        taken: 0,
        slot: 0,
        empties: 0,
    };
    Ok((inlet, outlet))
}
