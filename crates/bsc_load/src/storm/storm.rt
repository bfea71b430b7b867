//! The storm.
ghost use Rattle.std.specs.Prelude.{◌≡◌, ◌≤◌, IfSome};
ghost use Rattle.bsc_hub.specs.Passing.{IsCaller};
ghost use Rattle.bsc_load.specs.Inner.{Stops};
ghost use Rattle.bsc_load.specs.Storm.Inner.{IsNew, JoinsOne, MayJoin, Splits, SplitsOne, StormAnswers, StormFinishes, StormJoins, StormsFrom};
ghost use Rattle.bsc_load.specs.Storm.Inner.{answer, came_of, lacks, short_of, taken_of};
ghost use Rattle.bsc_load.specs.Storm.Storms.{Storms};

use crate::ends::LoadStop;
use crate::storm::ends::StormEnd;
use crate::storm::working::run_three;
use crate::storm::works::{Cut, Work};
use bsc_history::{AlreadyStopped, Counts};
use bsc_hub::{Hub, Pass, Told};
use std::alloc::Global;
use std::sync::Wait;
use std::thread::Threads;

/// A pass for a worker, unless as many numbers of callers are drawn as there may be.
fn split_one<R: Wait>(rt: &R, hub: &Hub, pass: &mut Pass) -> Option<Pass>
    requires { IsCaller hub.now pass.old }
    ensures { SplitsOne hub.now pass.old pass.new result }
{
    match hub.split(rt, pass) {
        Ok(new) => Some(new),
        Err(_) => None,
    }
}

/// A pass for each of three workers, or for the first of them.
fn split_three<R: Wait>(
    rt: &R,
    hub: &Hub,
    pass: &mut Pass,
) -> (Option<Pass>, Option<Pass>, Option<Pass>)
    requires { IsCaller hub.now pass.old }
    ensures { Splits hub.now pass.old pass.new result.0 result.1 result.2 }
{
    let one = split_one(rt, hub, pass);
    let other = split_one(rt, hub, pass);
    let sends = split_one(rt, hub, pass);
    (one, other, sends)
}

/// What a worker came to: it was cut short where it got no pass.
fn came_of(work: &Option<Work>) -> Result<u64, Cut>
    ensures { result ≡ came_of work.now }
{
    match work {
        None => Err(Cut::Short),
        Some(work) => work.taken,
    }
}

/// How many a worker counts as that may have been cut short, but for want of memory.
fn short_of(taken: Result<u64, Cut>) -> u32
    ensures { result ≡ short_of taken }
{
    match taken {
        Ok(_) => 0,
        Err(Cut::NoMemory) => 0,
        Err(Cut::Short) => 1,
    }
}

/// Whether memory ran out in a worker.
fn lacks(taken: Result<u64, Cut>) -> bool
    ensures { result ≡ lacks taken }
{
    match taken {
        Ok(_) => false,
        Err(Cut::NoMemory) => true,
        Err(Cut::Short) => false,
    }
}

/// How many frames a whole worker took.
fn taken_of(taken: Result<u64, Cut>) -> u64
    ensures { result ≡ taken_of taken }
{
    match taken {
        Ok(taken) => taken,
        Err(_) => 0,
    }
}

/// Stops the hub. What it answers is one value, so that it is known as a whole.
fn stop<R: Wait>(rt: &R, hub: &Hub, pass: &mut Pass) -> Result<Told<Counts>, AlreadyStopped>
    requires { IsCaller hub.now pass.old }
    ensures { Stops hub.now pass.old pass.new result }
{
    hub.stop(rt, pass)
}

/// What a storm answers whose hub was stopped.
fn answer(
    told: Result<Told<Counts>, AlreadyStopped>,
    taken: u64,
    short: u32,
) -> Result<StormEnd, LoadStop>
    ensures { result ≡ answer told taken short }
{
    if short > 0 {
        return Err(LoadStop::Short { workers: short });
    }
    match told {
        Ok(told) => Ok(StormEnd {
            counts: told.said,
            taken,
        }),
        Err(already) => Err(LoadStop::Stopped { at: already.at }),
    }
}

/// Stops the hub, and says what the storm came to.
fn end_of<R: Wait>(
    rt: &R,
    hub: &Hub,
    pass: &mut Pass,
    taken: u64,
    short: u32,
) -> Result<StormEnd, LoadStop>
    requires { IsCaller hub.now pass.old }
    ensures { StormAnswers hub.now pass.old pass.new taken short result }
{
    let told = stop(rt, hub, pass);
    answer(told, taken, short)
}

/// Joins the pass of a worker that has run.
fn join_one(hub: &Hub, pass: &mut Pass, work: Option<Work>)
    requires caller { IsCaller hub.now pass.old }
    requires work { MayJoin hub.now work }
    ensures { JoinsOne hub.now pass.old pass.new work }
{
    match work {
        None => (),
        Some(work) => hub.join(pass, work.pass),
    }
}

/// Joins the passes of three workers that have run.
fn join_three(hub: &Hub, pass: &mut Pass, x: Option<Work>, y: Option<Work>, z: Option<Work>)
    requires caller { IsCaller hub.now pass.old }
    requires x { MayJoin hub.now x }
    requires y { MayJoin hub.now y }
    requires z { MayJoin hub.now z }
    ensures { StormJoins hub.now pass.old pass.new x y z }
{
    join_one(hub, pass, x);
    join_one(hub, pass, y);
    join_one(hub, pass, z);
}

/// Joins the workers, and stops the hub where none lacked memory.
fn finish<R: Wait>(
    rt: &R,
    hub: &Hub,
    pass: &mut Pass,
    x: Option<Work>,
    y: Option<Work>,
    z: Option<Work>,
) -> Result<StormEnd, LoadStop>
    requires caller { IsCaller hub.now pass.old }
    requires x { MayJoin hub.now x }
    requires y { MayJoin hub.now y }
    requires z { MayJoin hub.now z }
    ensures { StormFinishes hub.now pass.old pass.new x y z result }
{
    let one = came_of(&x);
    let other = came_of(&y);
    let sends = came_of(&z);
    join_three(hub, pass, x, y, z);
    if lacks(one) || lacks(other) || lacks(sends) {
        return Err(LoadStop::NoMemory);
    }
    let taken = taken_of(one).saturating_add(taken_of(other));
    let short = short_of(one) + short_of(other) + short_of(sends);
    end_of(rt, hub, pass, taken, short)
}

/// Runs the three workers by these passes, as far as they got one, and stops the hub.
fn run<R: Threads + Wait + Sync>(
    rt: &R,
    alloc: Global,
    hub: &Hub,
    pass: &mut Pass,
    passes: (Option<Pass>, Option<Pass>, Option<Pass>),
    rounds: u32,
) -> Result<StormEnd, LoadStop>
    requires caller { IsCaller hub.now pass.old }
    requires one { IfSome passes.0 (IsNew hub.now) }
    requires other { IfSome passes.1 (IsNew hub.now) }
    requires sends { IfSome passes.2 (IsNew hub.now) }
    requires rounds { rounds ≤ 30000 }
    ensures { StormsFrom hub.now pass.old passes.0 passes.1 passes.2 rounds pass.new result }
{
    let (one, other, sends) = passes;
    let ((x, y), z) = run_three(rt, alloc, hub, one, other, sends, rounds);
    finish(rt, hub, pass, x, y, z)
}

/// Runs a storm of so many rounds on a hub, 1 to 30,000, and stops it. Three workers get a pass each that is split from
/// this one and joined in the end: two that take over from each other, and one that forwards to their address meanwhile.
/// `Short` says how many got no pass, were refused, or met a hub that had made as many calls as it may; it comes before
/// `Stopped`, which says by which entry the hub had been stopped before. The hub is stopped then, too, but not where
/// memory ran out.
pub fn storm_on<R: Threads + Wait + Sync>(
    rt: &R,
    alloc: Global,
    hub: &Hub,
    pass: &mut Pass,
    rounds: u32,
) -> Result<StormEnd, LoadStop>
    requires caller { IsCaller hub.now pass.old }
    requires rounds { (1 ≤ rounds) × (rounds ≤ 30000) }

    // Whose callers the pass took in, each with exactly which calls, and what shows each answer.
    ensures { Storms hub.now pass.old pass.new rounds result }
{
    let passes = split_three(rt, hub, pass);
    run(rt, alloc, hub, pass, passes, rounds)
}
