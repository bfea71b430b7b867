//! The workload.
ghost use Rattle.std.specs.Prelude.{◌≡◌, ◌≤◌, length};
ghost use Rattle.std.specs.List.{AllByRecursion};
ghost use Rattle.bsc_hub.specs.Passing.{IsCaller};
ghost use Rattle.bsc_load.specs.Inner.{HasRun, IsJob, LoadAnswers, LoadFinishes, LoadsFrom, Stops, answer};
ghost use Rattle.bsc_load.specs.Load.{Loads};

use crate::bounds::WORKERS;
use crate::ends::{LoadEnd, LoadStop};
use crate::jobs::{Job, Work};
use crate::passes::{join_all, run_all, split_for};
use bsc_history::{AlreadyStopped, Counts};
use bsc_hub::{Hub, Pass, Told};
use bsc_octets::NoMemory;
use std::alloc::Global;
use std::sync::Wait;
use std::thread::Threads;

/// Stops the hub. What it answers is one value, so that it is known as a whole.
fn stop<R: Wait>(rt: &R, hub: &Hub, pass: &mut Pass) -> Result<Told<Counts>, AlreadyStopped>
    requires { IsCaller hub.now pass.old }
    ensures { Stops hub.now pass.old pass.new result }
{
    hub.stop(rt, pass)
}

/// What a workload answers whose hub was stopped.
fn answer(
    told: Result<Told<Counts>, AlreadyStopped>,
    octets: u64,
    short: u32,
) -> Result<LoadEnd, LoadStop>
    ensures { result ≡ answer told octets short }
{
    if short > 0 {
        return Err(LoadStop::Short { workers: short });
    }
    match told {
        Ok(told) => Ok(LoadEnd {
            counts: told.said,
            octets,
        }),
        Err(already) => Err(LoadStop::Stopped { at: already.at }),
    }
}

/// Stops the hub, and says what the workload came to.
fn end_of<R: Wait>(
    rt: &R,
    hub: &Hub,
    pass: &mut Pass,
    octets: u64,
    short: u32,
) -> Result<LoadEnd, LoadStop>
    requires { IsCaller hub.now pass.old }
    ensures { LoadAnswers hub.now pass.old pass.new octets short result }
{
    let told = stop(rt, hub, pass);
    answer(told, octets, short)
}

/// Joins the workers, of whom so many got no pass, and stops the hub where none lacked memory.
fn finish<R: Wait>(
    rt: &R,
    hub: &Hub,
    pass: &mut Pass,
    works: Vec<Work>,
    without: u32,
) -> Result<LoadEnd, LoadStop>
    requires caller { IsCaller hub.now pass.old }
    requires works { AllByRecursion (HasRun hub.now) works.items }
    ensures { LoadFinishes hub.now works.items without pass.old pass.new result }
{
    let sum = join_all(hub, pass, works);
    if sum.lacks_memory {
        return Err(LoadStop::NoMemory);
    }
    end_of(rt, hub, pass, sum.octets, sum.short.saturating_add(without))
}

/// Runs the workers of the jobs, of so many workers, and stops the hub.
fn run_jobs<R: Threads + Wait + Sync>(
    rt: &R,
    alloc: Global,
    hub: &Hub,
    pass: &mut Pass,
    jobs: Vec<Job>,
    workers: u32,
) -> Result<LoadEnd, LoadStop>
    requires caller { IsCaller hub.now pass.old }
    requires jobs { AllByRecursion (IsJob hub.now) jobs.items }
    requires within { length jobs.items ≤ workers }
    requires few { workers ≤ WORKERS }
    ensures { LoadsFrom hub.now pass.old workers jobs.items pass.new result }
{
    let without = workers - jobs.len() as u32;
    match run_all(rt, alloc, hub, jobs) {
        Err(NoMemory) => Err(LoadStop::NoMemory),
        Ok(works) => finish(rt, hub, pass, works, without),
    }
}

/// Runs so many workers on a hub, 1 to `WORKERS`, each with a pass of its own that is split from this one and joined in the
/// end, and stops the hub. `Short` says how many workers got no pass, were refused, or met a hub that had made as many
/// calls as it may; it comes before `Stopped`, which says by which entry the hub had been stopped before. The hub is
/// stopped then, too, but not where memory ran out.
pub fn load_on<R: Threads + Wait + Sync>(
    rt: &R,
    alloc: Global,
    hub: &Hub,
    pass: &mut Pass,
    workers: u32,
) -> Result<LoadEnd, LoadStop>
    requires caller { IsCaller hub.now pass.old }
    requires workers { (1 ≤ workers) × (workers ≤ WORKERS) }

    // Whose callers the pass took in, each with exactly which calls, and what shows each answer.
    ensures { Loads hub.now pass.old pass.new workers result }
{
    match split_for(rt, alloc, hub, pass, workers as u16) {
        Err(NoMemory) => Err(LoadStop::NoMemory),
        Ok(jobs) => run_jobs(rt, alloc, hub, pass, jobs, workers),
    }
}
