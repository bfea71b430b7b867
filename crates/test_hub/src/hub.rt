//! One hub that real threads share. Each test says the same whatever the schedule.
ghost use Rattle.std.specs.Prelude.{◌≡◌, ◌≤◌, IfOk, IfSome};
ghost use Rattle.bsc_hub.specs.Passing.{IsCaller, IsOwnAs};
ghost use Rattle.bsc_hub.specs.Testing.{vmac_at};

mod calls;
mod courses;
mod threads;

use crate::crossing::{is_sent, is_shared};
use bsc_history::{Limits, MOST_CALLERS, MOST_CALLS, MOST_ROWS};
use bsc_hub::{Hub, Pass};
use bsc_octets::{Identity, NoMemory, Vmac, read_identity};
use bsc_ring::Outlet;
use std::alloc::Global;
use std::sync::Wait;

/// The address 02:00:00:00:00:`last`.
fn address(last: u8) -> Vmac
    ensures { result ≡ vmac_at last }
{
    Vmac([2, 0, 0, 0, 0, last])
}

/// A device of its own at each address.
fn who(last: u8) -> Identity
    ensures { result.vmac ≡ vmac_at last }
{
    let device = read_identity(&[last; 26]).device;
    Identity {
        vmac: address(last),
        device,
        max_bvlc: 1024,
        max_npdu: 1497,
    }
}

/// A hub at 02:00:00:00:00:FF with so many rows and outboxes of 64 frames, for so many calls and callers, and its first
/// pass.
pub(crate) fn new_hub(
    alloc: Global,
    rows: u32,
    calls: u64,
    callers: u64,
) -> Result<(Hub, Pass), NoMemory>
    requires rows { (1 ≤ rows) × (rows ≤ MOST_ROWS) }
    requires calls { (1 ≤ calls) × (calls ≤ MOST_CALLS) }
    requires callers { (1 ≤ callers) × (callers ≤ MOST_CALLERS) }
    ensures { IfOk result (λ r. IsCaller r.0 r.1) }
{
    let limits = Limits {
        rows,
        outbox: 64,
        calls,
        callers,
    };
    Hub::make(alloc, who(255), limits)
}

/// Connects, and answers the number of the connection and its outlet.
fn enter<R: Wait>(
    rt: &R,
    alloc: Global,
    hub: &Hub,
    pass: &mut Pass,
    last: u8,
) -> Option<(u64, Outlet)>
    requires { IsCaller hub.now pass.old }
    ensures caller { IsCaller hub.now pass.new }
    ensures owns { IfSome result (λ r. IsOwnAs pass.new r.0 (vmac_at last)) }
{
    match hub.connect(rt, alloc, pass, who(last)) {
        Ok(joined) => Some((joined.conn, joined.outlet)),
        Err(_) => None,
    }
}

/// Stops a hub, if it is to be.
pub(crate) fn stop_if<R: Wait>(rt: &R, hub: &Hub, pass: &mut Pass, stopped: bool)
    requires { IsCaller hub.now pass.old }
    ensures { IsCaller hub.now pass.new }
{
    if stopped {
        let _told = hub.stop(rt, pass);
    }
}

/// A hub may be shared among threads, and a pass and an outlet may be sent.
fn cross(hub: &Hub, pass: &Pass, outlet: &Outlet) {
    is_shared(hub);
    is_sent(pass);
    is_sent(outlet);
}
