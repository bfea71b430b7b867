//! A direct connection that comes up, and the path to its peer.
ghost use Rattle.std.specs.Prelude.{◌≢◌, IsTrue};
ghost use Rattle.bsc_octets.specs.Addresses.{broadcast};

use crate::peers::{address, node};
use bsc_connector::HubUse;
use bsc_direct::{Direct, Establish, Route, route};
use bsc_octets::{Identity, Vmac};
use std::process::Abort;
use std::test::*;

fn is_unicast(v: Vmac) -> bool
    ensures { IsTrue result → v ≢ broadcast }
{
    v != Vmac::BROADCAST
}

fn establish(
    rt: &impl Abort,
    direct: &mut Direct,
    own: Vmac,
    slot: u32,
    peer: Identity,
) -> Establish {
    assert!(rt; direct.awaits_peer(slot));
    assert!(rt; is_unicast(peer.vmac));
    direct.establish(own, slot, peer)
}

#[test]
fn a_course_of_connections(rt: HostRuntime) -> Result<(), Fail> {
    let mut direct = Direct::make(rt.alloc())?;
    let peer = address(11);
    assert!(rt; direct.claim(Some(peer)) == Ok(0));
    assert!(rt; route(&direct, HubUse::Primary, peer) == Route::Hub);
    let up = establish(&rt, &mut direct, address(10), 0, node());
    assert_eq!(rt; up, Establish::Up { replaced: None });
    assert!(rt; direct.established(peer) == Some(0));
    assert!(rt; route(&direct, HubUse::NoHub, peer) == Route::Direct(0));
    direct.release(0);
    assert!(rt; route(&direct, HubUse::NoHub, peer) == Route::NoPath);
    Ok(())
}
