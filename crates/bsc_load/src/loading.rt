//! A workload on a hub of its own.
ghost use Rattle.std.specs.Prelude.{◌≡◌, ◌≤◌, [], None, Some, Err, IfOk};
ghost use Rattle.std.specs.Arc.{arc_value};
ghost use Rattle.bsc_turn.specs.Passes.{ended_callers, loads_made, number_of, own_list, seen};
ghost use Rattle.bsc_hub.specs.Passing.{IsCaller, about_of};
ghost use Rattle.bsc_load.specs.declared.ends.LoadStop.TheVariants.{NoMemory as NoMemoryStop};
ghost use Rattle.bsc_load.specs.Load.{Loads};
ghost use Rattle.bsc_load.specs.Loaded.{Loaded, load_about, load_hub};

use crate::bounds::{OUTBOX, ROWS, WORKERS};
use crate::ends::{LoadEnd, LoadStop};
use crate::workload::load_on;
use bsc_history::{Limits, MOST_CALLERS, MOST_CALLS};
use bsc_hub::{Hub, Kept, Pass};
use bsc_octets::{DeviceId, Identity, NoMemory, Vmac};
use std::alloc::Global;
use std::sync::{Arc, Wait};
use std::thread::Threads;
use uuid::Uuid;

/// The identity of the hub.
fn hub_identity() -> Identity
    ensures { result ≡ load_hub }
{
    Identity {
        vmac: Vmac([2, 0, 0, 0, 0, 0xFF]),
        device: DeviceId(Uuid::from_bytes([
            0x00, 0x11, 0x22, 0x33, 0x44, 0x55, 0x66, 0x77, 0x88, 0x99, 0xAA, 0xBB, 0xCC, 0xDD,
            0xEE, 0xFF,
        ])),
        max_bvlc: 0x0640,
        max_npdu: 0x05D9,
    }
}

/// The hub, and its first pass.
fn make_hub(alloc: Global) -> Result<(Arc<Hub>, Pass), NoMemory>
    ensures pass { IfOk result (λ (hub, pass). IsCaller (arc_value hub) pass) }
    ensures new { IfOk result (λ (_, pass). (number_of pass ≡ 0) × (seen pass ≡ []) × (own_list pass ≡ [])
        × (ended_callers pass ≡ [])) }
    ensures fresh { IfOk result (λ (_, pass). loads_made pass ≡ 0) }
    ensures about { IfOk result (λ (hub, _). about_of (arc_value hub) ≡ load_about) }
{
    let limits = Limits {
        rows: ROWS,
        outbox: OUTBOX,
        calls: MOST_CALLS,
        callers: MOST_CALLERS,
    };
    let (hub, pass) = Hub::make(alloc, hub_identity(), limits)?;
    Ok((Arc::new(alloc, hub)?, pass))
}

/// Runs the workers by the first pass of a hub.
fn run_on<R: Threads + Wait + Sync>(
    rt: &R,
    alloc: Global,
    hub: &Arc<Hub>,
    pass: &mut Pass,
    workers: u32,
) -> Result<LoadEnd, LoadStop>
    requires caller { IsCaller (arc_value hub.now) pass.old }
    requires workers { (1 ≤ workers) × (workers ≤ WORKERS) }
    ensures { Loads (arc_value hub.now) pass.old pass.new workers result }
{
    load_on(rt, alloc, hub, pass, workers)
}

/// Makes a hub of `ROWS` rows and outboxes of `OUTBOX` frames, runs so many workers on it, 1 to `WORKERS`, and puts it and
/// its first pass into `kept`.
pub fn load<R: Threads + Wait + Sync>(
    rt: &R,
    alloc: Global,
    workers: u32,
    kept: &mut Kept,
) -> Result<LoadEnd, LoadStop>
    requires workers { (1 ≤ workers) × (workers ≤ WORKERS) }
    requires kept { kept.old.hub ≡ None }

    // Once the hub is made, it and its pass are kept, and what `load_on` says holds of them.
    ensures loaded { (hub : _) → kept.new.hub ≡ Some hub → Loaded workers kept.new hub result }

    // Where none is made there was no memory.
    ensures unmade { kept.new.hub ≡ None → (kept.new ≡ kept.old) × (result ≡ Err NoMemoryStop) }
{
    let Ok((hub, pass)) = make_hub(alloc) else {
        return Err(LoadStop::NoMemory);
    };
    let mut pass = pass;
    let end = run_on(rt, alloc, &hub, &mut pass, workers);
    kept.hub = Some(hub);
    kept.pass = Some(pass);
    end
}
