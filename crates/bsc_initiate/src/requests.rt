//! The messages that only the machine of a peer that initiates puts, as octets.
ghost use Rattle.std.specs.Prelude.{◌≡◌};
ghost use Rattle.bsc_accept.specs.Messages.{octets_of};
ghost use Rattle.bsc_initiate.specs.Messages.{connect_request, heartbeat_request};

use arrayvec::ArrayVec;
use bsc_accept::head;
use bsc_checks::put;
use bsc_octets::{Identity, function};

/// A Connect-Request of `own` with this Message ID.
pub(crate) fn connect_request(id: u16, own: &Identity) -> ArrayVec<u8, 32>
    ensures { result ≡ octets_of (connect_request id own.now) }
{
    let mut out = head(function::CONNECT_REQUEST, id);
    put(&mut out, &own.octets());
    out
}

/// A Heartbeat-Request with this Message ID.
pub(crate) fn heartbeat_request(id: u16) -> ArrayVec<u8, 32>
    ensures { result ≡ octets_of (heartbeat_request id) }
{
    head(function::HEARTBEAT_REQUEST, id)
}
