//! Storms that run.
ghost use Rattle.std.specs.Prelude.{◌≤◌};

use crate::hub::{new_hub, stop_if};
use bsc_history::{MOST_CALLERS, MOST_CALLS};
use bsc_load::{LoadStop, StormEnd, storm_on};
use std::alloc::Global;
use std::sync::Wait;
use std::test::Fail;
use std::thread::Threads;

/// So many rounds that each worker takes longer than a slice of a processor, so that they meet on a busy machine too.
const ROUNDS: u32 = 30_000;

/// A storm of so many rounds at a new hub for so many calls and callers, which may have been stopped.
fn stormed<R: Threads + Wait + Sync>(
    rt: &R,
    alloc: Global,
    rounds: u32,
    calls: u64,
    callers: u64,
    stopped: bool,
) -> Result<StormEnd, LoadStop>
    requires rounds { (1 ≤ rounds) × (rounds ≤ 30000) }
    requires calls { (1 ≤ calls) × (calls ≤ MOST_CALLS) }
    requires callers { (1 ≤ callers) × (callers ≤ MOST_CALLERS) }
{
    let Ok((hub, mut pass)) = new_hub(alloc, 1_024, calls, callers) else {
        return Err(LoadStop::NoMemory);
    };
    stop_if(rt, &hub, &mut pass, stopped);
    storm_on(rt, alloc, &hub, &mut pass, rounds)
}

/// A hub that has stopped or that is worn cuts all three short, and one with too few callers those that get no pass. Then storms
/// until in one of them a frame was taken, and a connection was replaced by who took it over. Which storm that is the schedule
/// says; where a hundred have none, the workers don't take, or don't take over. In each the three workers made all of their calls;
/// they leave as they came, so that nobody is refused.
#[test]
fn frames_are_taken_and_connections_replaced(rt: HostRuntime) -> Result<(), Fail> {
    let alloc = rt.alloc();
    let three = Err(LoadStop::Short { workers: 3 });
    assert!(rt; stormed(&rt, alloc, ROUNDS, 1 << 20, 4, true) == three);
    assert!(rt; stormed(&rt, alloc, ROUNDS, 5, 4, false) == three);
    assert!(rt; stormed(&rt, alloc, ROUNDS, 1 << 20, 1, false) == three);
    assert!(rt;
        stormed(&rt, alloc, ROUNDS, 1 << 20, 3, false) == Err(LoadStop::Short { workers: 1 })
    );
    let StormEnd { counts, taken } = stormed(&rt, alloc, 500, 1 << 20, 4, false)?;
    assert!(rt; counts.joined == 1_001 && counts.refused == 0);
    assert!(rt; counts.unicasts == 1_000 && counts.broadcasts == 0);
    assert!(rt; taken <= counts.appended);
    for _ in 0..100 {
        let StormEnd { counts, taken } = stormed(&rt, alloc, ROUNDS, 1 << 20, 4, false)?;
        assert!(rt; counts.joined == 60_001 && counts.refused == 0);
        assert!(rt; counts.unicasts == 60_000 && counts.broadcasts == 0);
        assert!(rt; taken <= counts.appended);
        if taken > 0 && counts.replaced > 0 {
            return Ok(());
        }
    }
    panic!(rt; "no storm in which a frame was taken and a connection replaced")
}
