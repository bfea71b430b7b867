//! Encapsulated NPDUs.
//!
//! | octets | field |
//! |---|---|
//! | 1 or more | the NPDU |
ghost use Rattle.bsc_frame.specs.Walk.{BodyAnswers};

use crate::body::Body;
use crate::check::Check;
use crate::fault::FrameFault;
use crate::owned::owned;
use std::alloc::Global;

/// The NPDU that a payload is.
pub(crate) fn read_npdu(alloc: Global, p: &[u8]) -> Result<Body, FrameFault>
    ensures { BodyAnswers 0x01 p.now result }
{
    if p.is_empty() {
        return Err(FrameFault::Fails(Check::C10));
    }
    Ok(Body::Npdu(owned(alloc, p)?))
}
