//! What the worker does that forwards to who is taken over.
ghost use Rattle.std.specs.Prelude.{◌≡◌, ◌≤◌, true};
ghost use Rattle.bsc_hub.specs.Passing.{IsCaller, IsOwnAs};
ghost use Rattle.bsc_load.specs.Storm.Inner.{SentAll, StormForwards, StormWorkerRuns, goes_on};
ghost use Rattle.bsc_load.specs.Storm.Peers.{storm_sender};

use crate::storm::peers::{storm_frame, storm_sender};
use crate::storm::staying::cut_of;
use crate::storm::works::Cut;
use bsc_desk::{OneReply, prepare};
use bsc_history::{Told, Worn};
use bsc_hub::{Hub, Pass};
use std::alloc::Global;
use std::sync::Wait;

/// A forward that was told a reply went on, whatever the reply.
fn goes_on(told: Result<Told<OneReply>, Worn>) -> Result<(), Cut>
    ensures { result ≡ goes_on told }
{
    match told {
        Ok(_) => Ok(()),
        Err(_) => Err(Cut::Short),
    }
}

/// Forwards unicast `id` of connection `conn`.
fn forward<R: Wait>(
    rt: &R,
    alloc: Global,
    hub: &Hub,
    pass: &mut Pass,
    conn: u64,
    id: u16,
) -> Result<(), Cut>
    requires caller { IsCaller hub.now pass.old }
    requires own { IsOwnAs pass.old conn storm_sender.vmac }
    ensures { StormForwards hub.now conn id pass.old pass.new result }
{
    let message = storm_frame(id);
    let Ok(ready) = prepare(alloc, &message, storm_sender().vmac) else {
        return Err(Cut::NoMemory);
    };
    goes_on(hub.forward_one(rt, pass, conn, ready))
}

/// Forwards so many unicasts.
fn forward_often<R: Wait>(
    rt: &R,
    alloc: Global,
    hub: &Hub,
    pass: &mut Pass,
    conn: u64,
    forwards: u16,
) -> Result<u64, Cut>
    requires caller { IsCaller hub.now pass.old }
    requires own { IsOwnAs pass.old conn storm_sender.vmac }
    ensures { SentAll hub.now conn forwards pass.old pass.new result }
{
    for id in 0..forwards {
        match forward(rt, alloc, hub, pass, conn, id) {
            Err(cut) => return Err(cut),
            Ok(_) => (),
        }
    }
    Ok(0)
}

/// Joins as the sender, forwards twice as many unicasts as there are rounds, and leaves.
pub(crate) fn send<R: Wait>(
    rt: &R,
    alloc: Global,
    hub: &Hub,
    pass: &mut Pass,
    rounds: u16,
) -> Result<u64, Cut>
    requires caller { IsCaller hub.now pass.old }
    requires rounds { rounds ≤ 30000 }
    ensures { StormWorkerRuns hub.now true rounds pass.old pass.new result }
{
    match hub.connect(rt, alloc, pass, storm_sender()) {
        Err(refusal) => Err(cut_of(refusal)),
        Ok(joined) => {
            let sent = forward_often(rt, alloc, hub, pass, joined.conn, 2 * rounds);
            hub.leave(rt, pass, joined.conn, joined.outlet);
            sent
        }
    }
}
