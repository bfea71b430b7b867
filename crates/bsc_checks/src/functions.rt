//! The function at a place and in its phase: C13.
ghost use Rattle.std.specs.Prelude.{◌↔◌, ◌≡◌, IsTrue};
ghost use Rattle.bsc_checks.specs.Places.{IsInPlaceConnected, IsInPlaceIn, IsInPlace, phase_of};

use crate::phase::Phase;
use crate::place::Place;
use bsc_octets::{Vmac, function};

impl Place {
    /// The phase of the connection.
    pub fn phase(&self) -> Phase
        ensures { result ≡ phase_of self.now }
    {
        match *self {
            Place::HubPort { phase }
            | Place::NodeHub { phase, .. }
            | Place::NodeDirect { phase, .. } => phase,
        }
    }
}

/// Whether the function is in place once the connection is made.
fn is_in_place_connected(place: &Place, function: u8, origin: Option<Vmac>) -> bool
    ensures { IsTrue result ↔ IsInPlaceConnected place.now function origin }
{
    match place {
        Place::HubPort { .. } => matches!(
            function,
            function::DISCONNECT_REQUEST | function::HEARTBEAT_REQUEST
        ),
        Place::NodeHub { .. } => {
            function <= function::ADVERTISEMENT_SOLICITATION
                || (matches!(
                    function,
                    function::DISCONNECT_REQUEST
                        | function::HEARTBEAT_REQUEST
                        | function::HEARTBEAT_ACK
                ) && origin.is_none())
        }
        Place::NodeDirect { .. } => {
            function <= function::ADVERTISEMENT_SOLICITATION
                || matches!(
                    function,
                    function::DISCONNECT_REQUEST
                        | function::HEARTBEAT_REQUEST
                        | function::HEARTBEAT_ACK
                )
        }
    }
}

/// Whether the function is in place.
fn is_in_place(place: &Place, function: u8, origin: Option<Vmac>) -> bool
    ensures { IsTrue result ↔ IsInPlaceIn (phase_of place.now) place.now function origin }
{
    match place.phase() {
        Phase::AwaitingRequest => function == function::CONNECT_REQUEST,
        Phase::AwaitingAccept => matches!(
            function,
            function::BVLC_RESULT | function::CONNECT_ACCEPT
        ),
        Phase::Connected => is_in_place_connected(place, function, origin),
        Phase::Disconnecting => matches!(
            function,
            function::BVLC_RESULT | function::DISCONNECT_ACK
        ),
    }
}

/// C13: whether a message, which is to be carried on or not, is out of place.
pub(crate) fn is_out_of_place(
    to_carry: bool,
    place: &Place,
    function: u8,
    origin: Option<Vmac>,
) -> bool
    ensures { IsTrue result ↔ (¬ IsInPlace to_carry place.now function origin) }
{
    if to_carry {
        return place.phase() != Phase::Connected;
    }
    !is_in_place(place, function, origin)
}
