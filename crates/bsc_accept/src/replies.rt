//! The messages that the machine puts of itself, as octets.
//!
//! Each has no addresses and no options, so its control flags are clear.
ghost use Rattle.std.specs.Prelude.{◌≡◌, ◌+◌, ◌≤◌, [], ◌∷◌, ◌++◌, length};
ghost use Rattle.arrayvec.specs.ArrayVec.{array_vec_len};
ghost use Rattle.byteorder.specs.Endian.{big_bytes};
ghost use Rattle.bsc_accept.specs.Messages.{octets_of, connect_accept, duplicate_vmac, disconnect_request, disconnect_ack, heartbeat_ack};

use arrayvec::ArrayVec;
use bsc_checks::{put, put_number};
use bsc_octets::{Identity, function, results};

/// The first four octets of a message without addresses and options: function, flags and Message ID.
pub fn head(function: u8, id: u16) -> ArrayVec<u8, 32>
    ensures items { result.items ≡ (function ∷ 0 ∷ []) ++ big_bytes 2 id }
    ensures len { array_vec_len result ≡ 4 }
{
    let mut out = ArrayVec::new();
    put(&mut out, &[function, 0]);
    put_number(&mut out, id);
    out
}

/// A Connect-Accept of `own`, which answers the Connect-Request with this Message ID.
pub(crate) fn connect_accept(id: u16, own: &Identity) -> ArrayVec<u8, 32>
    ensures { result ≡ octets_of (connect_accept id own.now) }
{
    let mut out = head(function::CONNECT_ACCEPT, id);
    put(&mut out, &own.octets());
    out
}

/// The NAK of the Connect-Request with this Message ID: its VMAC is another device's.
pub(crate) fn duplicate_vmac(id: u16) -> ArrayVec<u8, 32>
    ensures { result ≡ octets_of (duplicate_vmac id) }
{
    let mut out = head(function::BVLC_RESULT, id);
    put(&mut out, &[function::CONNECT_REQUEST, results::NAK, 0]);
    put_number(&mut out, results::COMMUNICATION);
    put_number(&mut out, results::NODE_DUPLICATE_VMAC);
    out
}

/// A Disconnect-Request with this Message ID.
pub fn disconnect_request(id: u16) -> ArrayVec<u8, 32>
    ensures { result ≡ octets_of (disconnect_request id) }
{
    head(function::DISCONNECT_REQUEST, id)
}

/// A Disconnect-ACK, which answers the Disconnect-Request with this Message ID.
pub fn disconnect_ack(id: u16) -> ArrayVec<u8, 32>
    ensures { result ≡ octets_of (disconnect_ack id) }
{
    head(function::DISCONNECT_ACK, id)
}

/// A Heartbeat-ACK, which answers the Heartbeat-Request with this Message ID.
pub fn heartbeat_ack(id: u16) -> ArrayVec<u8, 32>
    ensures { result ≡ octets_of (heartbeat_ack id) }
{
    head(function::HEARTBEAT_ACK, id)
}

/// The octets of a NAK, with more room behind them.
pub fn with_room(nak: &ArrayVec<u8, 24>) -> ArrayVec<u8, 32>
    ensures { result.items ≡ nak.now.items }
{
    let mut out = ArrayVec::new();
    put(&mut out, nak.as_slice());
    out
}
