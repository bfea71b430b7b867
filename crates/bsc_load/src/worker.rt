//! What one worker does.
ghost use Rattle.std.specs.Prelude.{◌≡◌, ◌<◌};
ghost use Rattle.bsc_ring.specs.Ends.{IsNewOutlet, outlet_mark};
ghost use Rattle.bsc_hub.specs.Passing.{IsCaller, IsOwnAs};
ghost use Rattle.bsc_load.specs.Inner.{AfterBoth, IsJob, LoadForwards, LoadWorkerRuns, RanAll, RunsJob, cut_of, goes_on};
ghost use Rattle.bsc_load.specs.Peers.{sender};

use crate::bounds::WORKERS;
use crate::frames::frame;
use crate::jobs::{Cut, Job, Work};
use crate::peers::{receiver, sender};
use crate::taking::take_all;
use bsc_desk::{OneReply, prepare};
use bsc_history::{Told, Worn};
use bsc_hub::{ConnectRefusal, Hub, Pass};
use bsc_ring::Outlet;
use std::alloc::Global;
use std::sync::Wait;

/// How many unicasts a worker forwards.
const FORWARDS: u16 = 1_000;

/// A forward that was told a reply went on, whatever the reply.
fn goes_on(told: Result<Told<OneReply>, Worn>) -> Result<(), Cut>
    ensures { result ≡ goes_on told }
{
    match told {
        Ok(_) => Ok(()),
        Err(_) => Err(Cut::Short),
    }
}

/// Forwards unicast `k` of connection `conn`.
fn forward<R: Wait>(
    rt: &R,
    alloc: Global,
    hub: &Hub,
    pass: &mut Pass,
    conn: u64,
    i: u16,
    k: u16,
) -> Result<(), Cut>
    requires caller { IsCaller hub.now pass.old }
    requires own { IsOwnAs pass.old conn (sender i).vmac }
    requires index { i < WORKERS }
    ensures { LoadForwards hub.now i conn k pass.old pass.new result }
{
    let Ok(message) = frame(alloc, i, k) else {
        return Err(Cut::NoMemory);
    };
    let Ok(ready) = prepare(alloc, message.as_slice(), sender(i).vmac) else {
        return Err(Cut::NoMemory);
    };
    goes_on(hub.forward_one(rt, pass, conn, ready))
}

/// Forwards all unicasts, and takes after each.
fn forward_all<R: Wait>(
    rt: &R,
    alloc: Global,
    hub: &Hub,
    pass: &mut Pass,
    conn: u64,
    outlet: &mut Outlet,
    i: u16,
) -> Result<u64, Cut>
    requires caller { IsCaller hub.now pass.old }
    requires own { IsOwnAs pass.old conn (sender i).vmac }
    requires new { IsNewOutlet outlet.old }
    requires index { i < WORKERS }
    ensures ran { RanAll hub.now i conn pass.old pass.new outlet.new result }
    ensures mark { outlet_mark outlet.new ≡ outlet_mark outlet.old }
{
    let mut octets = 0u64;
    for k in 0..FORWARDS {
        match forward(rt, alloc, hub, pass, conn, i, k) {
            Err(cut) => return Err(cut),
            Ok(_) => octets = take_all(rt, outlet, octets),
        }
    }
    Ok(octets)
}

/// Why a worker was cut short whose connect was refused.
fn cut_of(refusal: ConnectRefusal) -> Cut
    ensures { result ≡ cut_of refusal }
{
    match refusal {
        ConnectRefusal::NoMemory => Cut::NoMemory,
        ConnectRefusal::Worn(_) => Cut::Short,
        ConnectRefusal::Refused { .. } => Cut::Short,
    }
}

/// Joins the receiver, forwards, and lets the receiver leave.
fn run_both<R: Wait>(
    rt: &R,
    alloc: Global,
    hub: &Hub,
    pass: &mut Pass,
    conn: u64,
    i: u16,
) -> Result<u64, Cut>
    requires caller { IsCaller hub.now pass.old }
    requires own { IsOwnAs pass.old conn (sender i).vmac }
    requires index { i < WORKERS }
    ensures { AfterBoth hub.now i conn pass.old pass.new result }
{
    match hub.connect(rt, alloc, pass, receiver(i)) {
        Err(refusal) => Err(cut_of(refusal)),
        Ok(joined) => {
            let mut outlet = joined.outlet;
            let octets = forward_all(rt, alloc, hub, pass, conn, &mut outlet, i);
            hub.leave(rt, pass, joined.conn, outlet);
            octets
        }
    }
}

/// Joins the sender, and lets it leave in the end.
fn run<R: Wait>(rt: &R, alloc: Global, hub: &Hub, pass: &mut Pass, i: u16) -> Result<u64, Cut>
    requires caller { IsCaller hub.now pass.old }
    requires index { i < WORKERS }
    ensures { LoadWorkerRuns hub.now i pass.old pass.new result }
{
    match hub.connect(rt, alloc, pass, sender(i)) {
        Err(refusal) => Err(cut_of(refusal)),
        Ok(joined) => {
            let octets = run_both(rt, alloc, hub, pass, joined.conn, i);
            hub.leave(rt, pass, joined.conn, joined.outlet);
            octets
        }
    }
}

/// Runs a worker.
pub(crate) fn run_job<R: Wait>(rt: &R, alloc: Global, hub: &Hub, job: Job) -> Work
    requires { IsJob hub.now job }
    ensures { RunsJob hub.now job result }
{
    let Job { index, mut pass } = job;
    let octets = run(rt, alloc, hub, &mut pass, index);
    Work {
        index,
        pass,
        octets,
    }
}
