//! The NAK that answers a message.
//!
//! | octets | field |
//! |---|---|
//! | 1 | function 00, BVLC-Result |
//! | 1 | control flags: 04 where a Destination follows, 00 where not |
//! | 2 | the Message ID of the message that is refused, the high octet first |
//! | 0 or 6 | the Destination |
//! | 1 | the function that is refused |
//! | 1 | result code 01, NAK |
//! | 1 | the error header marker |
//! | 2 | the error class, the high octet first |
//! | 2 | the error code, the high octet first |
ghost use Rattle.std.specs.Prelude.{◌≡◌, ◌+◌, ◌*◌, ◌++◌, ◌≤◌, length, is_some, IfSome};
ghost use Rattle.arrayvec.specs.ArrayVec.{array_vec_len};
ghost use Rattle.bsc_octets.specs.Envelopes.{address_octets};
ghost use Rattle.bsc_options.specs.Spelling.{bit};
ghost use Rattle.bsc_frame.specs.Spelling.{Spells};
ghost use Rattle.bsc_checks.specs.Naks.{nak, return_address};

use crate::place::Place;
use crate::putting::{put, put_number};
use arrayvec::ArrayVec;
use bsc_octets::{Vmac, control, function, results};

/// The Destination of a NAK: a node tells its hub the sender of the message, where there is one.
pub(crate) fn return_address(place: &Place, origin: Option<Vmac>) -> Option<Vmac>
    ensures { result ≡ return_address place.now origin }
{
    match place {
        Place::NodeHub { .. } => origin,
        Place::HubPort { .. } | Place::NodeDirect { .. } => None,
    }
}

/// Puts the octets of an address at the end, where there is one.
fn put_address(out: &mut ArrayVec<u8, 24>, address: Option<Vmac>)
    requires { array_vec_len out.old + 6 ≤ 24 }
    ensures put { out.new.items ≡ out.old.items ++ address_octets address }
    ensures six { IfSome address (λ v. length v.0 ≡ 6) }
{
    if let Some(v) = address {
        put(out, &v.0);
    }
}

/// The control flags of a NAK.
fn flags_of(dest: Option<Vmac>) -> u8
    ensures { result ≡ 4 * bit (is_some dest) }
{
    if dest.is_some() { control::DEST } else { 0x00 }
}

/// The octets of a NAK.
pub(crate) fn nak(
    id: u16,
    dest: Option<Vmac>,
    function: u8,
    marker: u8,
    code: u16,
) -> ArrayVec<u8, 24>
    ensures { Spells (nak id dest function marker code) result.items }
{
    let mut out = ArrayVec::new();
    put(&mut out, &[function::BVLC_RESULT, flags_of(dest)]);
    put_number(&mut out, id);
    put_address(&mut out, dest);
    put(&mut out, &[function, results::NAK, marker]);
    put_number(&mut out, results::COMMUNICATION);
    put_number(&mut out, code);
    out
}
