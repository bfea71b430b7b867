//! What a worker does that takes over: it stays again and again.
ghost use Rattle.std.specs.Prelude.{◌≡◌};
ghost use Rattle.bsc_ring.specs.Ends.{IsNewOutlet, outlet_mark};
ghost use Rattle.bsc_hub.specs.Passing.{IsCaller};
ghost use Rattle.bsc_load.specs.Storm.Inner.{AfterStay, StayedOften, TookSome, cut_of};

use crate::storm::bounds::TAKES;
use crate::storm::peers::taken_over;
use crate::storm::works::Cut;
use bsc_hub::{ConnectRefusal, Hub, Pass};
use bsc_ring::{Outlet, Take};
use std::alloc::Global;
use std::sync::Wait;

/// Why a worker was cut short whose connect was refused.
pub(crate) fn cut_of(refusal: ConnectRefusal) -> Cut
    ensures { result ≡ cut_of refusal }
{
    match refusal {
        ConnectRefusal::NoMemory => Cut::NoMemory,
        ConnectRefusal::Worn(_) => Cut::Short,
        ConnectRefusal::Refused { .. } => Cut::Short,
    }
}

/// Takes at most `TAKES` times, and ends where the outlet is empty or closed.
fn take_some(outlet: &mut Outlet)
    requires { IsNewOutlet outlet.old }
    ensures took { TookSome outlet.new }
    ensures mark { outlet_mark outlet.new ≡ outlet_mark outlet.old }
{
    for k in 0..TAKES {
        match outlet.take() {
            Take::Frame(_frame) => (),
            Take::Empty => return,
            Take::Closed(_end) => return,
        }
    }
}

/// Connects, takes and leaves, and answers how many frames the outlet gave.
fn stay<R: Wait>(rt: &R, alloc: Global, hub: &Hub, pass: &mut Pass) -> Result<u64, Cut>
    requires { IsCaller hub.now pass.old }
    ensures { AfterStay hub.now pass.old pass.new result }
{
    match hub.connect(rt, alloc, pass, taken_over()) {
        Err(refusal) => Err(cut_of(refusal)),
        Ok(joined) => {
            let mut outlet = joined.outlet;
            take_some(&mut outlet);
            let told = hub.leave(rt, pass, joined.conn, outlet);
            Ok(told.said.taken)
        }
    }
}

/// So many stays, and how many frames they took.
pub(crate) fn stay_often<R: Wait>(
    rt: &R,
    alloc: Global,
    hub: &Hub,
    pass: &mut Pass,
    rounds: u32,
) -> Result<u64, Cut>
    requires { IsCaller hub.now pass.old }
    ensures { StayedOften hub.now rounds pass.old pass.new result }
{
    let mut taken = 0u64;
    for k in 0..rounds {
        match stay(rt, alloc, hub, pass) {
            Err(cut) => return Err(cut),
            Ok(more) => taken = taken.saturating_add(more),
        }
    }
    Ok(taken)
}
