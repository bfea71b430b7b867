//! Workloads that run.
ghost use Rattle.std.specs.Prelude.{◌≤◌};

use crate::hub::{new_hub, stop_if};
use bsc_history::{Counts, MOST_CALLS, MOST_ROWS};
use bsc_hub::Kept;
use bsc_load::{LoadEnd, LoadStop, WORKERS, load, load_on};
use std::alloc::Global;
use std::sync::Wait;
use std::test::Fail;
use std::thread::Threads;

/// What a worker comes to.
const ONE: LoadEnd = LoadEnd {
    counts: Counts {
        joined: 2,
        replaced: 0,
        refused: 0,
        unicasts: 1_000,
        broadcasts: 0,
        appended: 1_000,
        dropped: 0,
        full: 0,
        missed: 0,
    },
    octets: 32_020,
};

/// What four do.
const FOUR: LoadEnd = LoadEnd {
    counts: Counts {
        joined: 8,
        replaced: 0,
        refused: 0,
        unicasts: 4_000,
        broadcasts: 0,
        appended: 4_000,
        dropped: 0,
        full: 0,
        missed: 0,
    },
    octets: 128_080,
};

/// A workload of so many workers at a new hub for so many rows and calls, which may have been stopped.
fn loaded<R: Threads + Wait + Sync>(
    rt: &R,
    alloc: Global,
    rows: u32,
    calls: u64,
    stopped: bool,
    workers: u32,
) -> Result<LoadEnd, LoadStop>
    requires rows { (1 ≤ rows) × (rows ≤ MOST_ROWS) }
    requires calls { (1 ≤ calls) × (calls ≤ MOST_CALLS) }
    requires workers { (1 ≤ workers) × (workers ≤ WORKERS) }
{
    let Ok((hub, mut pass)) = new_hub(alloc, rows, calls, 1 << 20) else {
        return Err(LoadStop::NoMemory);
    };
    stop_if(rt, &hub, &mut pass, stopped);
    load_on(rt, alloc, &hub, &mut pass, workers)
}

/// One row is too few for a worker, and a hub that is worn or has stopped cuts all short.
#[test]
fn four_workers_and_one(rt: HostRuntime) -> Result<(), Fail> {
    let alloc = rt.alloc();
    assert!(rt; loaded(&rt, alloc, 1_024, 1 << 20, false, 4) == Ok(FOUR));
    let mut kept = Kept {
        hub: None,
        pass: None,
    };
    assert!(rt; load(&rt, alloc, 1, &mut kept) == Ok(ONE));
    assert!(rt; loaded(&rt, alloc, 1, 1 << 20, false, 1) == Err(LoadStop::Short { workers: 1 }));
    assert!(rt; loaded(&rt, alloc, 1_024, 100, false, 3) == Err(LoadStop::Short { workers: 3 }));
    assert!(rt; loaded(&rt, alloc, 1_024, 1 << 20, true, 2) == Err(LoadStop::Short { workers: 2 }));
    Ok(())
}
