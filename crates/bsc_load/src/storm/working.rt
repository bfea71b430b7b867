//! The three workers, each with its pass, and each in a thread of its own where one can be made.
ghost use Rattle.std.specs.Prelude.{◌≤◌, IfSome, false, true};
ghost use Rattle.bsc_turn.specs.Passes.{number_of};
ghost use Rattle.bsc_load.specs.Storm.Inner.{HasRun, IsNew, MayRun};

use crate::storm::sending::send;
use crate::storm::staying::stay_often;
use crate::storm::works::Work;
use bsc_hub::{Hub, Pass};
use std::alloc::Global;
use std::sync::Wait;
use std::thread;
use std::thread::Threads;

/// Runs a worker that takes over.
fn run_staying<R: Wait>(rt: &R, alloc: Global, hub: &Hub, pass: Pass, rounds: u32) -> Work
    requires { IsNew hub.now pass }
    ensures { HasRun hub.now false rounds (number_of pass) result }
{
    let mut pass = pass;
    let taken = stay_often(rt, alloc, hub, &mut pass, rounds);
    Work { pass, taken }
}

/// Runs the worker that forwards.
fn run_sending<R: Wait>(rt: &R, alloc: Global, hub: &Hub, pass: Pass, rounds: u32) -> Work
    requires new { IsNew hub.now pass }
    requires rounds { rounds ≤ 30000 }
    ensures { HasRun hub.now true rounds (number_of pass) result }
{
    let mut pass = pass;
    let taken = send(rt, alloc, hub, &mut pass, rounds as u16);
    Work { pass, taken }
}

/// Runs a worker that takes over, where it got a pass.
fn may_stay<R: Wait>(
    rt: &R,
    alloc: Global,
    hub: &Hub,
    pass: Option<Pass>,
    rounds: u32,
) -> Option<Work>
    requires { IfSome pass (IsNew hub.now) }
    ensures { MayRun hub.now false rounds pass result }
{
    match pass {
        None => None,
        Some(pass) => Some(run_staying(rt, alloc, hub, pass, rounds)),
    }
}

/// Runs the worker that forwards, where it got a pass.
fn may_send<R: Wait>(
    rt: &R,
    alloc: Global,
    hub: &Hub,
    pass: Option<Pass>,
    rounds: u32,
) -> Option<Work>
    requires new { IfSome pass (IsNew hub.now) }
    requires rounds { rounds ≤ 30000 }
    ensures { MayRun hub.now true rounds pass result }
{
    match pass {
        None => None,
        Some(pass) => Some(run_sending(rt, alloc, hub, pass, rounds)),
    }
}

/// Runs both workers that take over.
fn run_both<R: Threads + Wait + Sync>(
    rt: &R,
    alloc: Global,
    hub: &Hub,
    one: Option<Pass>,
    other: Option<Pass>,
    rounds: u32,
) -> (Option<Work>, Option<Work>)
    requires one { IfSome one (IsNew hub.now) }
    requires other { IfSome other (IsNew hub.now) }
    ensures one { MayRun hub.now false rounds one result.0 }
    ensures other { MayRun hub.now false rounds other result.1 }
{
    thread::join(
        rt,
        move || -> Option<Work>
            requires { IfSome one (IsNew hub.now) }
            ensures { MayRun hub.entry.now false rounds one result }
        { may_stay(rt, alloc, hub, one, rounds) },
        move || -> Option<Work>
            requires { IfSome other (IsNew hub.now) }
            ensures { MayRun hub.entry.now false rounds other result }
        { may_stay(rt, alloc, hub, other, rounds) },
    )
}

/// Runs all three workers, as far as they got passes.
pub(crate) fn run_three<R: Threads + Wait + Sync>(
    rt: &R,
    alloc: Global,
    hub: &Hub,
    one: Option<Pass>,
    other: Option<Pass>,
    sends: Option<Pass>,
    rounds: u32,
) -> ((Option<Work>, Option<Work>), Option<Work>)
    requires one { IfSome one (IsNew hub.now) }
    requires other { IfSome other (IsNew hub.now) }
    requires sends { IfSome sends (IsNew hub.now) }
    requires rounds { rounds ≤ 30000 }
    ensures one { MayRun hub.now false rounds one result.0.0 }
    ensures other { MayRun hub.now false rounds other result.0.1 }
    ensures sends { MayRun hub.now true rounds sends result.1 }
{
    thread::join(
        rt,
        move || -> (Option<Work>, Option<Work>)
            requires { IfSome one (IsNew hub.now) × IfSome other (IsNew hub.now) }
            ensures { MayRun hub.entry.now false rounds one result.0
                × MayRun hub.entry.now false rounds other result.1 }
        { run_both(rt, alloc, hub, one, other, rounds) },
        move || -> Option<Work>
            requires { IfSome sends (IsNew hub.now) × (rounds ≤ 30000) }
            ensures { MayRun hub.entry.now true rounds sends result }
        { may_send(rt, alloc, hub, sends, rounds) },
    )
}
