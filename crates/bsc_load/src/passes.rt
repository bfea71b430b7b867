//! The passes of the workers: each gets one, and each is joined in the end.
ghost use Rattle.std.specs.Prelude.{◌≤◌, IfOk};
ghost use Rattle.std.specs.List.{AllByRecursion};
ghost use Rattle.bsc_hub.specs.Passing.{IsCaller};
ghost use Rattle.bsc_load.specs.Inner.{Asks, CountsIn, HasRun, HaveRun, IsJob, LoadJoins, RunsJob, Splits};

use crate::bounds::WORKERS;
use crate::jobs::{Cut, Job, Sum, Work};
use crate::worker::run_job;
use bsc_hub::{Hub, Pass};
use bsc_octets::NoMemory;
use std::alloc::Global;
use std::sync::Wait;
use std::thread;
use std::thread::Threads;

/// A job for each worker that gets a pass, up to so many.
pub(crate) fn split_for<R: Wait>(
    rt: &R,
    alloc: Global,
    hub: &Hub,
    pass: &mut Pass,
    workers: u16,
) -> Result<Vec<Job>, NoMemory>
    requires caller { IsCaller hub.now pass.old }
    requires workers { workers ≤ WORKERS }
    ensures asks { Asks hub.now pass.old pass.new workers }
    ensures splits { IfOk result (λ v. Splits hub.now pass.old pass.new workers v.items) }
{
    let mut jobs = Vec::new(alloc);
    for index in 0..workers {
        match hub.split(rt, pass) {
            Err(_) => return Ok(jobs),
            Ok(new) => jobs.push(Job { index, pass: new })?,
        }
    }
    Ok(jobs)
}

/// Runs all workers, each in a thread of its own where one can be made.
pub(crate) fn run_all<R: Threads + Wait + Sync>(
    rt: &R,
    alloc: Global,
    hub: &Hub,
    jobs: Vec<Job>,
) -> Result<Vec<Work>, NoMemory>
    requires { AllByRecursion (IsJob hub.now) jobs.items }
    ensures { IfOk result (λ v. HaveRun hub.now jobs.items v.items) }
{
    match thread::map_vec(
        rt,
        jobs,
        &|job: Job| -> Work
            requires { IsJob hub.now job }
            ensures { RunsJob hub.entry.now job result }
        { run_job(rt, alloc, hub, job) },
    ) {
        Ok(works) => Ok(works),
        Err(_) => Err(NoMemory),
    }
}

/// Counts in what one worker came to.
fn count_in(sum: Sum, octets: Result<u64, Cut>) -> Sum
    ensures { CountsIn sum octets result }
{
    match octets {
        Ok(octets) => Sum {
            octets: sum.octets.saturating_add(octets),
            ..sum
        },
        Err(Cut::Short) => Sum {
            short: sum.short.saturating_add(1),
            ..sum
        },
        Err(Cut::NoMemory) => Sum {
            lacks_memory: true,
            ..sum
        },
    }
}

/// Joins the passes of all workers, in order.
pub(crate) fn join_all(hub: &Hub, pass: &mut Pass, works: Vec<Work>) -> Sum
    requires caller { IsCaller hub.now pass.old }
    requires works { AllByRecursion (HasRun hub.now) works.items }
    ensures { LoadJoins hub.now works.items pass.old pass.new result }
{
    let mut sum = Sum {
        octets: 0,
        short: 0,
        lacks_memory: false,
    };
    for work in works {
        hub.join(pass, work.pass);
        sum = count_in(sum, work.octets);
    }
    sum
}
