//! The URIs of an Address-Resolution-ACK.
//!
//! | octets | field |
//! |---|---|
//! | any | WebSocket URIs in UTF-8, separated by one space; there may be none |
ghost use Rattle.bsc_frame.specs.Walk.{BodyAnswers};

use crate::body::Body;
use crate::check::Check;
use crate::fault::FrameFault;
use crate::owned::owned;
use crate::text::is_utf8;
use std::alloc::Global;

/// The URIs that a payload is.
pub(crate) fn read_uris(alloc: Global, p: &[u8]) -> Result<Body, FrameFault>
    ensures { BodyAnswers 0x03 p.now result }
{
    if !is_utf8(p) {
        return Err(FrameFault::Fails(Check::C11));
    }
    Ok(Body::AddressResolutionAck(owned(alloc, p)?))
}
