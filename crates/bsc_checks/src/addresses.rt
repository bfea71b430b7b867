//! The addresses at a place: C4, and whether a message is a unicast.
ghost use Rattle.std.specs.Prelude.{◌↔◌, IsTrue};
ghost use Rattle.bsc_checks.specs.Places.{IsUnicast, IsOfConnection, LacksSender, IsForAnother, IsFromAnother, IsNotFor, HasWrongAddresses};

use crate::place::Place;
use bsc_octets::{Envelope, Vmac, function, is_same};

/// Whether a message with this Destination is a unicast.
pub(crate) fn is_unicast(dest: Option<Vmac>) -> bool
    ensures { IsTrue result ↔ IsUnicast dest }
{
    match dest {
        Some(v) => !is_same(v, Vmac::BROADCAST),
        None => true,
    }
}

/// Whether the function is one of the connection itself.
fn is_of_connection(function: u8) -> bool
    ensures { IsTrue result ↔ IsOfConnection function }
{
    (function::CONNECT_REQUEST..=function::HEARTBEAT_ACK).contains(&function)
}

/// Whether there is no Originating address, though the function needs one.
fn lacks_sender(function: u8, origin: Option<Vmac>) -> bool
    ensures { IsTrue result ↔ LacksSender function origin }
{
    origin.is_none() && function != function::BVLC_RESULT && !is_of_connection(function)
}

/// Whether there is a Destination that is neither the broadcast address nor this node's own.
fn is_for_another(own: Vmac, dest: Option<Vmac>) -> bool
    ensures { IsTrue result ↔ IsForAnother own dest }
{
    match dest {
        Some(v) => !is_same(v, Vmac::BROADCAST) && !is_same(v, own),
        None => false,
    }
}

/// Whether there is an Originating address that is not the peer's.
fn is_from_another(peer: Option<Vmac>, origin: Option<Vmac>) -> bool
    ensures { IsTrue result ↔ IsFromAnother peer origin }
{
    match (origin, peer) {
        (Some(v), Some(peer)) => !is_same(v, peer),
        (Some(_), None) => true,
        (None, _) => false,
    }
}

/// Whether there is a Destination that is not this node's own.
fn is_not_for(own: Vmac, dest: Option<Vmac>) -> bool
    ensures { IsTrue result ↔ IsNotFor own dest }
{
    match dest {
        Some(v) => !is_same(v, own),
        None => false,
    }
}

/// C4: whether the addresses of a message are wrong for the place.
pub(crate) fn has_wrong_addresses(place: &Place, head: &Envelope) -> bool
    ensures { IsTrue result ↔ HasWrongAddresses place.now head.now.function head.now.origin head.now.dest }
{
    match *place {
        Place::HubPort { .. } => head.origin.is_some(),
        Place::NodeHub { own, .. } => {
            lacks_sender(head.function, head.origin) || is_for_another(own, head.dest)
        }
        Place::NodeDirect { own, peer, .. } => {
            is_from_another(peer, head.origin) || is_not_for(own, head.dest)
        }
    }
}
