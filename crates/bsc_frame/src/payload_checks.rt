//! What can be wrong with a payload: C10 to C11, by the table of functions and payloads. Nothing is read and no memory is
//! taken; who only judges a message asks here.
//!
//! | function | octets at least | more may follow |
//! |---|---|---|
//! | 00, BVLC-Result | 2, and 7 of a NAK | of a NAK, its details |
//! | 01, Encapsulated-NPDU | 1 | yes |
//! | 03, Address-Resolution-ACK | 0 | yes |
//! | 04, Advertisement | 6 | no |
//! | 06 and 07, Connect-Request and Connect-Accept | 26 | no |
//! | 0C, Proprietary-Message | 3 | yes |
//! | any other | 0 | no |
ghost use Rattle.std.specs.Prelude.{◌≡◌, ◌↔◌, ◌≤◌, ◌<◌, ◌⊎◌, IsTrue, Option, drop, length, slice_index};
ghost use Rattle.std.specs.Str.{IsUtf8};
ghost use Rattle.bsc_octets.specs.Addresses.{broadcast, zero_vmac};
ghost use Rattle.bsc_octets.specs.Envelopes.{vmac_at};
ghost use Rattle.bsc_frame.specs.PayloadChecks.{result_code, expects_payload, fixed_part, takes_rest, IsMissing, IsBelowFixedPart};
ghost use Rattle.bsc_frame.specs.PayloadChecks.{IsBeyondFixedPart, IsOutOfRange};
ghost use Rattle.bsc_frame.specs.Walk.{PayloadAnswers};

use crate::answer::{ACK_PART, NAK_PART};
use crate::check::Check;
use crate::text::is_utf8;
use crate::{advert, connect, proprietary};
use bsc_octets::{Vmac, function, is_same, results};

/// The result code of a BVLC-Result.
fn result_code(p: &[u8]) -> u8
    ensures { result ≡ result_code p.now }
{
    match p.get(1) {
        Some(code) => *code,
        None => results::ACK,
    }
}

/// Whether the function has a payload always.
fn expects_payload(function: u8) -> bool
    ensures { result ≡ expects_payload function }
{
    matches!(
        function,
        function::ENCAPSULATED_NPDU
            | function::ADVERTISEMENT
            | function::CONNECT_REQUEST
            | function::CONNECT_ACCEPT
            | function::PROPRIETARY_MESSAGE
    )
}

/// How many octets the payload has at least.
fn fixed_part(function: u8, p: &[u8]) -> usize
    ensures { result ≡ fixed_part function p.now }
{
    match function {
        function::BVLC_RESULT if result_code(p) == results::NAK => NAK_PART,
        function::BVLC_RESULT => ACK_PART,
        function::ENCAPSULATED_NPDU => 1,
        function::ADVERTISEMENT => advert::FIXED_PART,
        function::CONNECT_REQUEST | function::CONNECT_ACCEPT => connect::FIXED_PART,
        function::PROPRIETARY_MESSAGE => proprietary::FIXED_PART,
        _ => 0,
    }
}

/// Whether octets may follow those.
fn takes_rest(function: u8, p: &[u8]) -> bool
    ensures { result ≡ takes_rest function p.now }
{
    matches!(
        function,
        function::ENCAPSULATED_NPDU
            | function::ADDRESS_RESOLUTION_ACK
            | function::PROPRIETARY_MESSAGE
    ) || (function == function::BVLC_RESULT && result_code(p) != results::ACK)
}

/// C10: whether there is no payload, though the function has one always.
fn is_missing(function: u8, p: &[u8]) -> bool
    ensures { IsTrue result ↔ IsMissing function p.now }
{
    expects_payload(function) && p.is_empty()
}

/// C10b: whether the payload is shorter than its fixed part.
fn is_below_fixed_part(function: u8, p: &[u8]) -> bool
    ensures { IsTrue result ↔ IsBelowFixedPart function p.now }
{
    p.len() < fixed_part(function, p)
}

/// C10c: whether octets follow a fixed part that ends the payload.
fn is_beyond_fixed_part(function: u8, p: &[u8]) -> bool
    ensures { IsTrue result ↔ IsBeyondFixedPart function p.now }
{
    !takes_rest(function, p) && fixed_part(function, p) < p.len()
}

/// Whether a BVLC-Result is neither an ACK nor a NAK, or the details of a NAK are not UTF-8.
fn is_bad_result(p: &[u8]) -> bool
    requires { fixed_part 0x00 p.now ≤ length p.now }
    ensures { IsTrue result ↔ ((1 < result_code p.now) ⊎ ((result_code p.now ≡ 1) × (¬ IsUtf8 (drop 7 p.now)))) }
{
    match result_code(p) {
        results::ACK => false,
        results::NAK => !is_utf8(&p[NAK_PART..]),
        _ => true,
    }
}

/// Whether the hub status of an Advertisement is above 2, or `accepts` above 1.
fn is_bad_advert(p: &[u8]) -> bool
    requires { 6 ≤ length p.now }
    ensures { IsTrue result ↔ ((2 < slice_index p.now 0) ⊎ (1 < slice_index p.now 1)) }
{
    p[0] > 2 || p[1] > 1
}

/// The address in the first six octets.
fn first_address(p: &[u8]) -> Vmac
    requires { 6 ≤ length p.now }
    ensures { result ≡ vmac_at p.now 0 }
{
    let mut octets = [0u8; 6];
    octets.copy_from_slice(&p[..6]);
    Vmac(octets)
}

/// Whether who connects has the reserved address or that of all.
fn is_no_node(p: &[u8]) -> bool
    requires { 6 ≤ length p.now }
    ensures { IsTrue result ↔ ((vmac_at p.now 0 ≡ zero_vmac) ⊎ (vmac_at p.now 0 ≡ broadcast)) }
{
    let address = first_address(p);
    is_same(address, Vmac::ZERO) || is_same(address, Vmac::BROADCAST)
}

/// C11: whether a value of the payload is out of its range, or a text of it is not UTF-8.
fn is_out_of_range(function: u8, p: &[u8]) -> bool
    requires { fixed_part function p.now ≤ length p.now }
    ensures { IsTrue result ↔ IsOutOfRange function p.now }
{
    match function {
        function::BVLC_RESULT => is_bad_result(p),
        function::ADDRESS_RESOLUTION_ACK => !is_utf8(p),
        function::ADVERTISEMENT => is_bad_advert(p),
        function::CONNECT_REQUEST | function::CONNECT_ACCEPT => is_no_node(p),
        _ => false,
    }
}

/// The first of C10 to C11 that fails of the payload of a function.
pub fn payload_fault(function: u8, p: &[u8]) -> Option<Check>
    ensures { PayloadAnswers function p.now result }
{
    if is_missing(function, p) {
        return Some(Check::C10);
    }
    if is_below_fixed_part(function, p) {
        return Some(Check::C10b);
    }
    if is_beyond_fixed_part(function, p) {
        return Some(Check::C10c);
    }
    if is_out_of_range(function, p) {
        return Some(Check::C11);
    }
    None
}
